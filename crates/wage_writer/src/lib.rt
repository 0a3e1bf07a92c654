// The writer of a wage file: a 300 or a 309 from its fields, into lent room.
//
// Document 01, "The wage file". The fields are lent one behind the other in one text, with the size of each: sizes
// that are together not the text's are refused with 1. A line is drafted in scratch room and judged there by the judge's own
// rules; only a right one reaches the lent room.
#![tactic(auto)]

ghost use Rattle.std.specs.Prelude.{◌≡◌, length, replicate};
ghost use Rattle.refusal.specs.Refusal.{first_of};
ghost use Rattle.wage_places.specs.Places.{spots};
ghost use Rattle.lent_fields.specs.Fields.{fields_of, for_sizes};
ghost use Rattle.bare_line.specs.Bare.{bare_line};
ghost use Rattle.wage_draft.specs.Draft.{drafted, DraftsRight};
ghost use Rattle.wage_writer.specs.Writer.{label_draft, order_draft, label_answer, order_answer};
ghost use Rattle.line_room.specs.LineRoom.{for_room, Writes};

use refusal::{Answer, Refusal};
use wage_places::LineType;

// Drafts a line of a type from all its fields.
fn draft_line(
    day: u64,
    kind: u64,
    t: LineType,
    text: &[u8],
    sizes: &[usize],
    line: &mut [u8],
) -> Answer
    requires { line.old ≡ replicate 1002 32 }
    ensures { DraftsRight (drafted day kind t (spots t) (fields_of sizes.now text.now) (bare_line t)) result line.new }
{
    bare_line::dress(t, line);
    let count = wage_places::count(t);
    wage_draft::draft(day, kind, t, 0, count, text, sizes, line)
}

// Writes a line of a type from all its fields.
fn write_line(
    day: u64,
    kind: u64,
    t: LineType,
    text: &[u8],
    sizes: &[usize],
    out: &mut [u8],
) -> Answer
    ensures { Writes (first_of (drafted day kind t (spots t) (fields_of sizes.now text.now) (bare_line t)).answer (for_room (length out.old))) (drafted day kind t (spots t) (fields_of sizes.now text.now) (bare_line t)).line out.old result out.new }
{
    let mut line = [32u8; 1002];
    draft_line(day, kind, t, text, sizes, &mut line)?;
    line_room::put_line(&line, out)
}

// Writes a 300 for a day from its fields 1 to 8.
#[tactic(auto, unfolding(crate::specs::Writer::label_answer))]
pub fn write_label(day: u64, text: &[u8], sizes: &[usize], out: &mut [u8]) -> Answer
    ensures { Writes (for_sizes 8 sizes.now text.now (label_answer day (fields_of sizes.now text.now) (length out.old))) (label_draft day (fields_of sizes.now text.now)).line out.old result out.new }
{
    if !lent_fields::is_lent_whole(text, sizes, 8) {
        return Err(Refusal::Size(refusal::nowhere()));
    }
    if !dates::is_date(day) {
        return Err(Refusal::Date(refusal::nowhere()));
    }
    write_line(day, 0, LineType::Label, text, sizes, out)
}

// Writes a 309 for a day and a kind from its fields 1, 2, 5 to 12 and 18 to 23.
#[tactic(auto, unfolding(crate::specs::Writer::order_answer))]
pub fn write_order(day: u64, kind: u64, text: &[u8], sizes: &[usize], out: &mut [u8]) -> Answer
    ensures { Writes (for_sizes 16 sizes.now text.now (order_answer day kind (fields_of sizes.now text.now) (length out.old))) (order_draft day kind (fields_of sizes.now text.now)).line out.old result out.new }
{
    if !lent_fields::is_lent_whole(text, sizes, 16) {
        return Err(Refusal::Size(refusal::nowhere()));
    }
    if !dates::is_date(day) {
        return Err(Refusal::Date(refusal::nowhere()));
    }
    if !line_room::is_kind(kind) {
        return Err(Refusal::Form(refusal::nowhere()));
    }
    write_line(day, kind, LineType::Order, text, sizes, out)
}
