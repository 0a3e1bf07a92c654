// The listing program: reads one line, an IBAN or a model, one space and a reference, with `?` for each digit that is not
// readable, and writes the count and the filled texts, or `refused` and the number.
//
// A line of any length is kept by `line` as far as a listing can tell it from another. `listing_printed` puts what is written
// of it into lent room, line by line; its theorems say that this is `listing_printed` of the whole input.
#![tactic(auto)]

use line::Seen;
use refusal::Refusal;
use std::io::Read;
use text::front;

fn main(rt: HostRuntime) {
    let mut head = [0u8; 22];
    let mut tail = [0u8; 23];
    match read_line(&mut rt.stdin(), &mut head, &mut tail) {
        Some(seen) => respond(&rt, seen, &head, &tail),
        None => words::unread(&rt),
    }
}

// Reads until the line or the input ends; nothing where a read fails. A proved loop has to end, and nothing says that an
// input does: so the loop has a last turn, which no run comes to.
fn read_line<R: Read>(input: &mut R, head: &mut [u8], tail: &mut [u8]) -> Option<Seen> {
    let mut chunk = [0u8; 4096];
    let mut seen = line::fresh();
    for _ in 0..u64::MAX {
        let got = words::read_once(input, &mut chunk);
        if got.failed {
            return None;
        }
        if got.size == 0 {
            return Some(seen);
        }
        seen = line::fed(seen, &chunk[..got.size], head, tail);
        if seen.ended {
            return Some(seen);
        }
    }
    None
}

// Lends the room for ten thousand numbers.
fn respond<'a>(rt: &(impl Print + Eprint), seen: Seen, head: &'a [u8], tail: &'a [u8]) {
    let mut numbers = [0u16; 10000];
    write_listing(rt, seen, head, tail, &mut numbers);
}

// Writes what is printed of the line that was kept.
fn write_listing<'a>(
    rt: &(impl Print + Eprint),
    seen: Seen,
    head: &'a [u8],
    tail: &'a [u8],
    numbers: &mut [u16],
) {
    let r = listing_printed::list(seen, head, tail, numbers);
    if !write_first(rt, r) {
        return;
    }
    if let Ok(n) = r {
        write_lines(rt, listing_printed::text(seen, head, tail), numbers, n);
    }
}

// Writes the first line, at most 30 bytes; whether it was written.
fn write_first(rt: &(impl Print + Eprint), r: Result<usize, Refusal>) -> bool {
    let mut out = [0u8; 30];
    let n = listing_printed::put_first(r, &mut out);
    words::publish(rt, front(&out, n))
}

// Writes the text filled by each of the first n numbers, as long as writing goes well.
fn write_lines(rt: &(impl Print + Eprint), text: &[u8], numbers: &[u16], n: usize) {
    for number in numbers.iter().take(n) {
        if !write_line(rt, text, *number) {
            return;
        }
    }
}

// Writes the text filled by a number, a line of at most 23 bytes; whether it was written.
fn write_line(rt: &(impl Print + Eprint), text: &[u8], number: u16) -> bool {
    let mut out = [0u8; 23];
    let n = listing_printed::put_filled(text, number, &mut out);
    words::publish(rt, front(&out, n))
}
