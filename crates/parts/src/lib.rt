// The parts of a reference: whether they are those that its model asks, and where they end.
//
// Document 01, "Reference models". The digit reader and the part reader call each other, as 01 asks. Where the parts end
// is one number, a digit of base 1024 for each end, which a listing of fillings carries: all its fillings have their parts
// at the same places.
#![tactic(auto)]

ghost use Rattle.std.specs.Prelude.{◌≡◌, ◌≤◌, ◌<◌, ◌+◌, length};
ghost use Rattle.std.specs.List.{prefix_len};
ghost use Rattle.classes.specs.Classes.{is_digit};
ghost use Rattle.text.specs.Split.{split};
ghost use Rattle.parts.specs.Mirror.{part_read, digit_read, end_of, count_fits, parts_found};

use models::Model;

// A byte as a number.
pub fn wide(b: u8) -> usize
    ensures { result ≡ b }
{
    b as usize
}

// Reads a part, which begins at the byte `at`, and those behind it: its digits, and where it ends its length is judged.
// Answers where they end, or 0 where one does not fit: a number, since an enum would be handed up through memory.
#[cycle(digit_part)]
fn part(s: &[u8], lengths: &[u8], at: usize) -> usize
    requires { (at + length s.now < 1024) × (length lengths.now ≤ 8) }
    ensures { result ≡ part_read lengths.now at (split 45 s.now) }
{
    if lengths.len() < 2 {
        return 0;
    }
    let ends = digit(s, &lengths[2..], at);
    let end = ends % 1024;
    if end <= at {
        return 0;
    }
    let n = end - at;
    if n < wide(lengths[0]) {
        return 0;
    }
    if wide(lengths[1]) < n {
        return 0;
    }
    ends
}

// How many digits a text begins with.
fn digits(s: &[u8]) -> usize
    ensures count { result ≡ prefix_len is_digit s.now }
    ensures within { result ≤ length s.now }
{
    s.iter().take_while(|b| classes::is_digit(**b)).count()
}

// Reads the digits of a part, one after the other; a hyphen hands over to the reading of the next part, for which the
// lengths are. Answers where the parts end, or 0.
#[cycle(digit_part)]
fn digit(s: &[u8], lengths: &[u8], at: usize) -> usize
    requires { (at + length s.now < 1024) × (length lengths.now ≤ 6) }
    ensures { result ≡ digit_read lengths.now at (split 45 s.now) }
{
    let n = digits(s);
    if n == s.len() {
        return at + n;
    }
    if s[n] != 45 {
        return 0;
    }
    let rest = part(&s[n + 1..], lengths, at + n + 1);
    if rest == 0 {
        return 0;
    }
    at + n + 1024 * rest
}

// The end of a part, counted from 0; 0 where there is no such part.
pub fn end_of(k: usize, ends: usize) -> usize
    ensures { result ≡ end_of k ends }
{
    if 6 < k {
        return 0;
    }
    (ends >> (10 * k)) % 1024
}

// Whether there are as many parts as a model asks.
fn count_fits(fewest: usize, most: usize, ends: usize) -> bool
    ensures { result ≡ count_fits fewest most ends }
{
    if end_of(most, ends) != 0 {
        return false;
    }
    if fewest == 0 {
        return true;
    }
    end_of(fewest - 1, ends) != 0
}

// Where the parts of a text end, if they are those that the model asks, each of its length: four of 255 digits at most.
pub fn parts(model: Model, s: &[u8]) -> Option<usize>
    ensures { result ≡ parts_found model s.now }
{
    let lengths = model.lengths;
    if s.len() == 0 {
        return (model.fewest == 0).then_some(0);
    }
    if 1023 < s.len() {
        return None;
    }
    let ends = part(s, &lengths, 0);
    if ends == 0 {
        return None;
    }
    count_fits(wide(model.fewest), wide(model.most), ends).then_some(ends)
}
