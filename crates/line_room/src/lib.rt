// A whole wage line put into lent room, and the 399, which has no fields.
//
// Document 01, "The wage file", the writer: "15 exactly when the room is under 1,002"; it "changes nothing after the line".
#![tactic(auto)]

ghost use Rattle.std.specs.Prelude.{◌≡◌, ◌||◌, eqb, length};
ghost use Rattle.bare_line.specs.Bare.{bare_line};
ghost use Rattle.line_room.specs.LineRoom.{for_room, closing_answer, Writes};

use refusal::{Answer, Refusal};
use wage_places::LineType;

// Puts a whole line at the front of the lent room, if there is enough.
pub fn put_line(line: &[u8; 1002], out: &mut [u8]) -> Answer
    ensures { Writes (for_room (length out.old)) line.now out.old result out.new }
{
    if out.len() < 1002 {
        return Err(Refusal::Room(refusal::nowhere(), 1002));
    }
    room::put(out, 0, line);
    Ok(())
}

// Whether a kind is 4 or 5.
pub fn is_kind(kind: u64) -> bool
    ensures { result ≡ (eqb kind 4 || eqb kind 5) }
{
    kind == 4 || kind == 5
}

// Writes a 399, for a day.
#[tactic(auto, unfolding(crate::specs::LineRoom::closing_answer), using(bare_line::proofs::Theorems::bare))]
pub fn write_closing(day: u64, out: &mut [u8]) -> Answer
    ensures { Writes (closing_answer day (length out.old)) (bare_line LineType.Closing) out.old result out.new }
{
    if !dates::is_date(day) {
        return Err(Refusal::Date(refusal::nowhere()));
    }
    let mut line = [32u8; 1002];
    bare_line::dress(LineType::Closing, &mut line);
    put_line(&line, out)
}
