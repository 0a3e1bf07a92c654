// The text fields of a slip: the characters that they permit, of one byte or of two, and their number.
//
// Document 01, "The slip's fourteen fields", last paragraph.
#![tactic(auto)]

ghost use Rattle.std.specs.Prelude.{◌≡◌};
ghost use Rattle.characters.specs.Characters.{is_small_letter, is_sign, is_single, after_c4, after_c5, is_pair, is_completed};
ghost use Rattle.characters.specs.Answers.{characters_verdict};

use verdict::{Fault, Verdict};

// Whether a byte is a letter, a to z.
fn is_small_letter(b: u8) -> bool
    ensures { result ≡ is_small_letter b }
{
    if b < 97 {
        return false;
    }
    b <= 122
}

// Whether a byte is a space or a sign of those that a text permits.
fn is_sign(b: u8) -> bool
    ensures { result ≡ is_sign b }
{
    if b == 32 {
        return true;
    }
    if b == 58 {
        return true;
    }
    if b == 63 {
        return true;
    }
    if b < 39 {
        return false;
    }
    if b > 47 {
        return false;
    }
    b != 42
}

// Whether a byte is a character of its own.
fn is_single(b: u8) -> bool
    ensures { result ≡ is_single b }
{
    if classes::is_digit(b) {
        return true;
    }
    if classes::is_letter(b) {
        return true;
    }
    if is_small_letter(b) {
        return true;
    }
    is_sign(b)
}

// Whether a byte makes a letter after C4.
fn is_after_c4(c: u8) -> bool
    ensures { result ≡ after_c4 c }
{
    if c == 134 {
        return true;
    }
    if c == 135 {
        return true;
    }
    if c == 140 {
        return true;
    }
    if c == 141 {
        return true;
    }
    if c == 144 {
        return true;
    }
    c == 145
}

// Whether a byte makes a letter after C5.
fn is_after_c5(c: u8) -> bool
    ensures { result ≡ after_c5 c }
{
    if c == 160 {
        return true;
    }
    if c == 161 {
        return true;
    }
    if c == 189 {
        return true;
    }
    c == 190
}

// Whether two bytes are one of the ten letters of two bytes.
fn is_pair(b: u8, c: u8) -> bool
    ensures { result ≡ is_pair b c }
{
    if b == 196 {
        return is_after_c4(c);
    }
    if b == 197 {
        return is_after_c5(c);
    }
    false
}

// Whether the byte at `at`, where there is one, completes a letter that `b` begins.
fn is_completed(b: u8, s: &[u8], at: usize) -> bool
    ensures { result ≡ is_completed b s.now at }
{
    if at >= s.len() {
        return false;
    }
    is_pair(b, s[at])
}

// A text field of at most `most` characters: 3 with its byte, then 4.
pub fn judge(most: usize, s: &[u8]) -> Verdict
    ensures { result ≡ characters_verdict most s.now }
{
    let mut n: usize = 0;
    let mut rest = s;
    while let [b, behind @ ..] = rest {
        rest = if is_single(*b) {
            behind
        } else if is_completed(*b, behind, 0) {
            &behind[1..]
        } else {
            return Err(Fault::Byte(s.len() - rest.len()));
        };
        n += 1;
    }
    verdict::only_if(n <= most, Fault::Length)
}
