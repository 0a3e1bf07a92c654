// One line of the wage file: its size, ends and type, a place of it by field number, and the lines of a file.
//
// Document 01, "The wage file". Where the places stand is the crate `wage_places`.
#![tactic(auto)]

ghost use Rattle.std.specs.Prelude.{◌≡◌, length, take, drop};
ghost use Rattle.wage_line.specs.Pieces.{next_piece};
ghost use Rattle.wage_line.specs.Line.{ends_right, type_from, typed_of, place_of};

use refusal::{Place, Refusal};
use wage_places::{LineType, Spot};

// ---------------------------------------------------------------------------
// Size, ends, type

// Whether a line ends in CR LF.
fn ends_right(s: &[u8]) -> bool
    ensures { result ≡ ends_right s.now }
{
    s.len() >= 1002 && s[1000] == b'\r' && s[1001] == b'\n'
}

// The type that three bytes write; else 5 at the type's first byte.
#[tactic(auto, unfolding(crate::specs::Line::type_from))]
fn type_from(a: u8, b: u8, c: u8) -> Result<LineType, Refusal>
    ensures { result ≡ type_from a b c }
{
    match [a, b, c] {
        [b'3', b'0', b'0'] => Ok(LineType::Label),
        [b'3', b'0', b'1'] => Ok(LineType::Group),
        [b'3', b'0', b'9'] => Ok(LineType::Order),
        [b'3', b'9', b'9'] => Ok(LineType::Closing),
        _ => Err(Refusal::Form(Place {
            line: 0,
            field: 0,
            byte: 997,
        })),
    }
}

// A line's type: 1, 2, then 5.
#[tactic(auto, unfolding(crate::specs::Line::typed_of))]
pub fn read_type(s: &[u8]) -> Result<LineType, Refusal>
    ensures { result ≡ typed_of s.now }
{
    if s.len() != 1002 {
        return Err(Refusal::Size(refusal::nowhere()));
    }
    if !ends_right(s) {
        return Err(Refusal::Ends(refusal::nowhere()));
    }
    type_from(s[997], s[998], s[999])
}

// A named place of a line, by its field's number, as the part of the lent line where it stands; else an empty part.
#[tactic(auto, unfolding(crate::specs::Line::place_of))]
pub fn place(s: &[u8], field: usize) -> &[u8]
    ensures { result.now ≡ place_of s.now field }
{
    match read_type(s) {
        Ok(t) => wage_places::part(wage_places::find(t, field), s),
        Err(_) => &s[..0],
    }
}

// ---------------------------------------------------------------------------
// The pieces of a file

// The piece of 1,002 bytes at a place; a shorter one at the end.
pub fn piece(s: &[u8], at: usize) -> &[u8]
    ensures { result.now ≡ take 1002 (drop at s.now) }
{
    wage_places::part(
        Spot {
            field: 0,
            start: at,
            size: 1002,
        },
        s,
    )
}

// Where the piece after the one at a place begins: at the end, if there is none.
pub fn next_piece(s: &[u8], at: usize) -> usize
    ensures { result ≡ next_piece (length s.now) at }
{
    if s.len().saturating_sub(at) < 1002 {
        s.len()
    } else {
        at + 1002
    }
}
