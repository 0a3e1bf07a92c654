// The bytes of a text: the first that a class does not permit, and what else is asked of them.
//
// One scan serves every field: it finds the first byte that a class does not permit. A description, the longest place
// of a wage line, is first tested as a whole by `all_described`.
#![tactic(auto)]

ghost use Rattle.std.specs.Prelude.{◌≡◌, ◌&&◌, ℕ, leb, take};
ghost use Rattle.text.specs.Digits.{two_digits};
ghost use Rattle.text.specs.Bytes.{first_bad, bytes_verdict, all_of, trimmed, count_of};
ghost use Rattle.classes.specs.Classes.{permits};

use classes::Class;
use verdict::{Fault, Verdict};

// A part of lent bytes: where it begins, and how many bytes it has.
#[repr(C)]
#[derive(Clone, Copy)]
pub struct Part {
    pub start: usize,
    pub length: usize,
}

// The first n bytes of a text, as far as it goes.
pub fn front(s: &[u8], n: usize) -> &[u8]
    ensures { result.now ≡ take n s.now }
{
    if s.len() < n {
        return s;
    }
    &s[0..n]
}

// The number that two bytes write, where both are digits.
pub fn two_digits(a: u8, b: u8) -> Option<usize>
    ensures { result ≡ two_digits a b }
{
    if classes::is_digit(a) && classes::is_digit(b) {
        return Some(usize::from(a - b'0') * 10 + usize::from(b - b'0'));
    }
    None
}

// The place of the first byte that the class does not permit, looked for byte by byte.
fn first_wrong(class: Class, s: &[u8]) -> Option<usize>
    ensures { result ≡ first_bad class s.now }
{
    for (i, b) in s.iter().enumerate() {
        if !classes::permitted(class, *b) {
            return Some(i);
        }
    }
    None
}

// The place of the first byte that the class does not permit. Digits are asked most often, and are tested in one go first.
pub fn first_bad(class: Class, s: &[u8]) -> Option<usize>
    ensures { result ≡ first_bad class s.now }
{
    match class {
        Class::Digits if all_within(b'0', b'9', s) => None,
        _ => first_wrong(class, s),
    }
}

// 3 with its byte, unless a class permits all.
#[tactic(auto, unfolding(crate::specs::Bytes::bytes_verdict))]
pub fn judge(class: Class, s: &[u8]) -> Verdict
    ensures { result ≡ bytes_verdict class s.now }
{
    match first_bad(class, s) {
        Some(i) => Err(Fault::Byte(i)),
        None => Ok(()),
    }
}

// Whether every byte lies between two: whatever class permits just those, it permits all of them. It has no branch, so that
// the compiler takes many bytes at a time.
fn all_within(least: u8, most: u8, s: &[u8]) -> bool
    ensures { (k : Class) → ((b : ℕ) → permits k b ≡ (leb least b && leb b most)) → result ≡ all_of k s.now }
{
    if s.len() == 0 {
        return true;
    }
    if s[0] < least {
        return false;
    }
    if most < s[0] {
        return false;
    }
    let mut right = true;
    for b in s {
        right = right & ((least <= *b) & (*b <= most));
    }
    right
}

// Whether every byte is a blank: `all_of` of that class, which is asked most often.
pub fn all_blank(s: &[u8]) -> bool
    ensures { result ≡ all_of Class.Blanks s.now }
{
    all_within(32, 32, s)
}

// Whether the class permits every byte: in one go where it permits those between two.
pub fn all_of(class: Class, s: &[u8]) -> bool
    ensures { result ≡ all_of class s.now }
{
    match class {
        Class::Digits => all_within(b'0', b'9', s),
        Class::Letters => all_within(b'A', b'Z', s),
        Class::Blanks => all_blank(s),
        Class::Zeros => all_within(b'0', b'0', s),
        _ => first_bad(class, s).is_none(),
    }
}

// Whether a description permits every byte: `all_of` of that class, in one go over all of them.
pub fn all_described(s: &[u8]) -> bool
    ensures { result ≡ all_of Class.Description s.now }
{
    let mut right = true;
    for b in s {
        right = right & classes::described(*b);
    }
    right
}

// A text without the blanks at its end.
pub fn trim(s: &[u8]) -> &[u8]
    ensures { result.now ≡ trimmed s.now }
{
    let mut left = s;
    while let Some((last, front)) = left.split_last() {
        if *last != b' ' {
            return left;
        }
        left = front;
    }
    left
}

// How many bytes c a text has.
pub fn count(c: u8, s: &[u8]) -> usize
    ensures { result ≡ count_of c s.now }
{
    let mut n = 0;
    // one loop, which the compiler takes four bytes at a time; `filter` and `count` are a loop in a loop, byte by byte
    for b in s {
        if *b == c {
            n += 1;
        }
    }
    n
}
