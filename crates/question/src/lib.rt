// One question of the cases: its fields between bars, its verb, the numbers in its fields, a text of fields laid out as the
// calls of the desk want them, and its answer written.
//
// second/README.md says what a question is. What is written cannot be said in a contract (docs/DECISIONS.md): `tell`,
// `count` and `tell_value` are safe and end.
#![tactic(auto)]

ghost use Rattle.std.specs.Prelude.{◌≡◌, [], ◌∷◌, length};
ghost use Rattle.std.proofs.lemmas.List.Edits.{sets};
ghost use Rattle.text.specs.Digits.{digits_of, value_from};
ghost use Rattle.text.specs.Split.{split, joined};
ghost use Rattle.question.specs.Question.{piece_at, field_at, behind_bars, capped, number_asked, place_among, line_byte, lined, lengths_of};

use boundary::{Told, Valued};
use text::front;
use words::{say, say_number};

// ---------------------------------------------------------------------------
// Its fields

// How many bytes stand before the first byte c: all of them where there is none.
pub fn find(s: &[u8], c: u8) -> usize
    ensures { result ≡ length (piece_at c 0 s.now) }
{
    s.iter().position(|b| *b == c).unwrap_or(s.len())
}

// What stands behind so many bars.
pub fn behind(s: &[u8], bars: usize) -> &[u8]
    ensures { result.now ≡ behind_bars bars s.now }
{
    let mut left = bars;
    for (i, b) in s.iter().enumerate() {
        if left == 0 {
            return &s[i..];
        }
        if *b == b'|' {
            left -= 1;
        }
    }
    &s[..0]
}

// A field, counted from 0.
pub fn field(s: &[u8], k: usize) -> &[u8]
    ensures { result.now ≡ field_at k s.now }
{
    let t = behind(s, k);
    front(t, find(t, b'|'))
}

// The place of a verb among those between bars, counted from 0; their number where it is not there.
pub fn number_of(verb: &[u8], verbs: &[u8]) -> usize
    ensures { result ≡ place_among verb.now (split 124 verbs.now) }
{
    let n = text::count(b'|', verbs) + 1;
    for k in 0..n {
        if verb == field(verbs, k) {
            return k;
        }
    }
    n
}

// ---------------------------------------------------------------------------
// Its numbers

// A number with one digit more after it, or the largest; what is no digit is passed over.
fn longer(n: usize, b: u8) -> usize
    ensures { result ≡ capped (value_from n (digits_of (b ∷ []))) }
{
    if !classes::is_digit(b) {
        return n;
    }
    let d = (b - b'0') as usize;
    if (usize::MAX - d) / 10 < n {
        return usize::MAX;
    }
    n * 10 + d
}

// The number that the digits of a text write; the largest of 64 bits where that is more.
fn number(s: &[u8]) -> usize
    ensures { result ≡ number_asked s.now }
{
    s.iter().fold(0, |n, b| longer(n, *b))
}

// The number in a field.
pub fn number_at(s: &[u8], k: usize) -> usize
    ensures { result ≡ number_asked (field_at k s.now) }
{
    number(field(s, k))
}

// ---------------------------------------------------------------------------
// A text of fields laid out

// A byte of a text whose bytes c stand for line feeds.
fn line_byte(c: u8, b: u8) -> u8
    ensures { result ≡ line_byte c b }
{
    if b == c { b'\n' } else { b }
}

// A text with its bytes c as line feeds, as far as there is room.
pub fn put_lines(out: &mut [u8], s: &[u8], c: u8)
    ensures { out.new ≡ sets out.old 0 (lined c s.now) }
{
    for (i, b) in s.iter().enumerate() {
        if out.len() <= i {
            return;
        }
        out[i] = line_byte(c, *b);
    }
}

// The fields of a text one behind the other, as far as there is room.
pub fn put_fields(out: &mut [u8], s: &[u8])
    ensures { out.new ≡ sets out.old 0 (joined (split 124 s.now)) }
{
    let mut at = 0;
    for b in s {
        if *b != b'|' {
            if out.len() <= at {
                return;
            }
            out[at] = *b;
            at += 1;
        }
    }
}

// How many bytes the fields of a text are together.
pub fn size_of(s: &[u8]) -> usize
    ensures { result ≡ length (joined (split 124 s.now)) }
{
    s.len() - text::count(b'|', s)
}

// The sizes of the fields of a text, as far as there is room.
pub fn put_sizes(out: &mut [usize], s: &[u8])
    ensures { out.new ≡ sets out.old 0 (lengths_of (split 124 s.now)) }
{
    let mut at = 0;
    for size in out.iter_mut() {
        let n = find(&s[at..], b'|');
        *size = n;
        if s.len() - at <= n {
            return;
        }
        at += n + 1;
    }
}

// ---------------------------------------------------------------------------
// Its answer written

// Writes a word and its number.
pub fn count(rt: &impl Print, word: &[u8], n: usize) {
    say(rt, word);
    say_number(rt, n);
}

// Writes an answer.
pub fn tell(rt: &impl Print, t: Told) {
    if t.number == 0 {
        say(rt, b"accepted");
        return;
    }
    count(rt, b"refused ", t.number);
    count(rt, b" line ", t.line);
    count(rt, b" field ", t.field);
    count(rt, b" byte ", t.byte);
    count(rt, b" needed ", t.needed);
}

// Writes an answer with its value.
pub fn tell_value(rt: &impl Print, v: Valued, word: &[u8]) {
    let t = v.told;
    tell(rt, t);
    count(rt, word, v.value);
}
