// What the programs print, put into lent room: words, numbers in decimal digits, and a refusal with its place.
//
// Each is put behind the one before, as far as there is room, and answers the place behind it.
#![tactic(auto)]

ghost use Rattle.std.specs.Prelude.{◌≡◌};
ghost use Rattle.printed.specs.Printed.{width_in, decimal, counted, place_text, refused_text, Puts};

use refusal::{Place, Refusal};

// A text.
pub fn put(out: &mut [u8], at: usize, s: &[u8]) -> usize
    ensures { Puts s.now at out.old result out.new }
{
    if out.len() < at {
        return out.len();
    }
    let left = out.len() - at;
    room::put(out, at, s);
    if left < s.len() {
        return out.len();
    }
    at + s.len()
}

// How many decimal digits a number has.
#[tactic(auto, using(crate::proofs::Laws::width_max))]
fn width(n: u64) -> usize
    ensures { result ≡ width_in 20 n }
{
    n.max(1).ilog10() as usize + 1
}

// A number in decimal digits.
pub fn put_number(out: &mut [u8], at: usize, n: u64) -> usize
    ensures { Puts (decimal n) at out.old result out.new }
{
    if out.len() < at {
        return out.len();
    }
    let left = out.len() - at;
    let digits = width(n);
    room::put_digits(out, at, digits, n);
    if left < digits {
        return out.len();
    }
    at + digits
}

// A word, and a number behind it.
pub fn put_counted(out: &mut [u8], at: usize, word: &[u8], n: usize) -> usize
    ensures { Puts (counted word.now n) at out.old result out.new }
{
    let next = put(out, at, word);
    put_number(out, next, n as u64)
}

// Where a refusal is told, to the end of its line.
fn put_place(out: &mut [u8], at: usize, p: Place) -> usize
    ensures { Puts (place_text p) at out.old result out.new }
{
    let line = p.line;
    let field = p.field;
    let byte = p.byte;
    let mut next = put_counted(out, at, b" line ", line);
    next = put_counted(out, next, b" field ", field);
    next = put_counted(out, next, b" byte ", byte);
    put(out, next, b"\n")
}

// A refusal, with its place.
pub fn put_refused(out: &mut [u8], at: usize, r: Refusal) -> usize
    ensures { Puts (refused_text r) at out.old result out.new }
{
    let number = refusal::number(r) as usize;
    let next = put_counted(out, at, b"refused ", number);
    put_place(out, next, refusal::told(r))
}
