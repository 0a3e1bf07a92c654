// One line of any length, divided at its first space, in memory that does not grow with it.
//
// The listing program reads its line through this: it keeps the first 22 bytes before the space and the first 23 after
// it, which is one byte more than any text that a listing takes (a longer one is refused for its size all the same).
#![tactic(auto)]

ghost use Rattle.std.specs.Prelude.{◌≡◌, List, ℕ};
ghost use Rattle.line.specs.Mirror.{starting, took, feed, kept_of, took_tail, took_head};

// What was seen so far: how many bytes are kept of each side, whether the space came, and whether the line ended.
#[derive(Clone, Copy)]
pub struct Seen {
    pub head: usize,
    pub tail: usize,
    pub spaced: bool,
    pub ended: bool,
}

// Nothing seen yet.
pub fn fresh() -> Seen
    ensures { result ≡ starting }
{
    Seen {
        head: 0,
        tail: 0,
        spaced: false,
        ended: false,
    }
}

// What was seen, with the bytes of `s` after it.
pub fn fed(seen: Seen, s: &[u8], head: &mut [u8], tail: &mut [u8]) -> Seen
    ensures value { result ≡ (feed (kept_of seen head.old tail.old) s.now).seen }
    ensures head_after { head.new ≡ (feed (kept_of seen head.old tail.old) s.now).head }
    ensures tail_after { tail.new ≡ (feed (kept_of seen head.old tail.old) s.now).tail }
{
    let mut so_far = seen;
    for b in s {
        if so_far.ended {
            return so_far;
        }
        so_far = took_byte(so_far, *b, head, tail);
    }
    so_far
}

// One byte more.
fn took_byte(seen: Seen, b: u8, head: &mut [u8], tail: &mut [u8]) -> Seen
    ensures { kept_of result head.new tail.new ≡ took (kept_of seen head.old tail.old) b }
{
    if seen.ended {
        return seen;
    }
    if b == b'\n' {
        return Seen {
            head: seen.head,
            tail: seen.tail,
            spaced: seen.spaced,
            ended: true,
        };
    }
    if seen.spaced {
        return took_tail(seen, b, tail);
    }
    if b == b' ' {
        return Seen {
            head: seen.head,
            tail: seen.tail,
            spaced: true,
            ended: false,
        };
    }
    took_head(seen, b, head)
}

// One byte more after the space.
fn took_tail(seen: Seen, b: u8, tail: &mut [u8]) -> Seen
    ensures { (head : List ℕ) → kept_of result head tail.new ≡ took_tail (kept_of seen head tail.old) b }
{
    let at = seen.tail;
    if at < tail.len() {
        tail[at] = b;
        return Seen {
            head: seen.head,
            tail: at + 1,
            spaced: true,
            ended: false,
        };
    }
    seen
}

// One byte more before the space.
fn took_head(seen: Seen, b: u8, head: &mut [u8]) -> Seen
    ensures { (tail : List ℕ) → kept_of result head.new tail ≡ took_head (kept_of seen head.old tail) b }
{
    let at = seen.head;
    if at < head.len() {
        head[at] = b;
        return Seen {
            head: at + 1,
            tail: seen.tail,
            spaced: false,
            ended: false,
        };
    }
    seen
}
