// What an accepted slip hands back: its fields, as the parts of the lent bytes where they stand, and its amount.
//
// Document 01, "The slip's fourteen fields"; document 02, W1, for a slip in either currency. A refused slip, and an unknown
// number, give an empty part.
#![tactic(auto)]

ghost use Rattle.std.specs.Prelude.{◌≡◌, ◌+◌, ◌≤◌, length, take, drop};
ghost use Rattle.refusal.specs.Refusal.{is_accepted};
ghost use Rattle.text.specs.Split.{split};
ghost use Rattle.slip.specs.Slip.{slip_answer_in, piece_of};
ghost use Rattle.slip_handed.specs.Handed.{piece_part, field_part_in, field_part, field_in, field_of, slip_cents};

use classes::Class;
use refusal::{Answer, Refusal};
use slip_fields::Currency;
use text::Part;

// ---------------------------------------------------------------------------
// Its fields

// Whether a slip in a currency is accepted.
fn is_accepted(currency: Currency, s: &[u8]) -> bool
    ensures { result ≡ is_accepted (slip_answer_in currency s.now) }
{
    slip::read_in(currency, s).is_ok()
}

// How many bytes the first piece of a text has: up to its first line feed, or all of them.
fn first_length(s: &[u8]) -> usize
    ensures { result ≡ length (piece_of 0 (split 10 s.now)) }
{
    match text::first_bad(Class::Line, s) {
        Some(i) => i,
        None => s.len(),
    }
}

// Where the piece at a place stands, counted from 0, between line feeds; past the end it has no byte.
fn piece(s: &[u8], k: usize) -> Part
    ensures { result ≡ piece_part k (split 10 s.now) }
{
    let mut at: usize = 0;
    for _ in 0..k {
        match text::first_bad(Class::Line, &s[at..]) {
            Some(i) => at += i + 1,
            None => {
                return Part {
                    start: at,
                    length: 0,
                };
            }
        }
    }
    Part {
        start: at,
        length: first_length(&s[at..]),
    }
}

// The bytes of a part of a text.
fn bytes(s: &[u8], p: Part) -> &[u8]
    requires { p.start + p.length ≤ length s.now }
    ensures { result.now ≡ take p.length (drop p.start s.now) }
{
    let start = p.start;
    let length = p.length;
    let end = start + length;
    &s[start..end]
}

// The piece at a place, counted from 0, between line feeds; empty past the end.
pub fn piece_text(s: &[u8], k: usize) -> &[u8]
    ensures { result.now ≡ piece_of k (split 10 s.now) }
{
    bytes(s, piece(s, k))
}

// Where a field of an accepted slip in a currency stands, 4 to 14; else no part.
#[tactic(auto, unfolding(crate::specs::Handed::field_part_in))]
pub fn part_in(currency: Currency, s: &[u8], n: usize) -> Part
    ensures { result ≡ field_part_in currency s.now n }
{
    let none = Part {
        start: 0,
        length: 0,
    };
    if n < 4 {
        return none;
    }
    if 14 < n {
        return none;
    }
    if !is_accepted(currency, s) {
        return none;
    }
    piece(s, n - 1)
}

// A field of an accepted slip in a currency, 4 to 14, as the part of the lent bytes where it stands; else an empty part.
pub fn field_in(currency: Currency, s: &[u8], n: usize) -> &[u8]
    ensures { result.now ≡ field_in currency s.now n }
{
    bytes(s, part_in(currency, s, n))
}

// Where a field of an accepted euro slip stands.
pub fn part(s: &[u8], n: usize) -> Part
    ensures { result ≡ field_part s.now n }
{
    part_in(Currency::Euro, s, n)
}

// A field of an accepted euro slip.
pub fn field(s: &[u8], n: usize) -> &[u8]
    ensures { result.now ≡ field_of s.now n }
{
    field_in(Currency::Euro, s, n)
}

// ---------------------------------------------------------------------------
// Its amount

// The amount of a euro slip in cents.
#[tactic(auto, using(crate::proofs::Amounts::cents_read))]
pub fn cents(s: &[u8]) -> Result<u64, Refusal>
    ensures { result ≡ slip_cents s.now }
{
    slip::read(s)?;
    Ok(sums::number(piece_text(s, 2)))
}
