// The writer of a 301, from its fields and its group's lent orders, into lent room.
//
// Document 01, "The wage file". Refusals in their order: the sizes of the fields, the day, the kind, the lent orders, the fields, the room.
#![tactic(auto)]

ghost use Rattle.std.specs.Prelude.{◌<◌, ◌/◌, length, take, drop, replicate, ◌≡◌, [], ◌∷◌, ◌++◌};
ghost use Rattle.refusal.specs.Refusal.{first_of};
ghost use Rattle.wage_line.specs.Pieces.{pieces};
ghost use Rattle.worked_out.specs.Amounts.{amounts};
ghost use Rattle.lent_fields.specs.Fields.{fields_of, for_sizes};
ghost use Rattle.group_writer.specs.GroupWriter.{group_draft, group_answer};
ghost use Rattle.line_room.specs.LineRoom.{for_room, Writes};
ghost use Rattle.text.specs.Digits.{digits_text};
ghost use Rattle.wage_places.specs.Places.{spots};
ghost use Rattle.wage_draft.specs.Draft.{drafted, in_scratch, Drafts, DraftsRight};

use refusal::{Answer, Refusal};
use sums::Sum;
use wage_places::LineType;

// The number and the sum of a group's orders, five digits and twenty.
fn put_worked(orders: &[u8], digits: &mut [u8])
    requires { (length digits.old ≡ 25) × (amounts (pieces orders.now) < 100000000000000000000) }
    ensures { digits.new ≡ digits_text 5 (length orders.now / 1002) ++ digits_text 20 (amounts (pieces orders.now)) }
{
    let number = worked_out::number(orders) as u64;
    let sum = worked_out::total(orders);
    let high = sum.high;
    let low = sum.low;
    room::put_digits(digits, 0, 5, number);
    room::put_digits(digits, 5, 2, high);
    room::put_digits(digits, 7, 18, low);
}

// Drafts the number and the sum of a 301.
fn draft_worked(day: u64, kind: u64, orders: &[u8], line: &mut [u8]) -> Answer
    requires { amounts (pieces orders.now) < 100000000000000000000 }
    ensures { Drafts (in_scratch line.old (drafted day kind LineType.Group (take 2 (drop 4 (spots LineType.Group))) (digits_text 5 (length orders.now / 1002) ∷ (digits_text 20 (amounts (pieces orders.now)) ∷ [])) line.old)) result line.new }
{
    let mut digits = [48u8; 25];
    put_worked(orders, &mut digits);
    let sizes = [5usize, 20usize];
    wage_draft::draft(day, kind, LineType::Group, 4, 6, &digits, &sizes, line)
}

// Drafts a 301 from its given fields and its group's orders.
fn draft_group(
    day: u64,
    kind: u64,
    text: &[u8],
    sizes: &[usize],
    orders: &[u8],
    line: &mut [u8],
) -> Answer
    requires { (line.old ≡ replicate 1002 32) × (amounts (pieces orders.now) < 100000000000000000000) }
    ensures { DraftsRight (group_draft day kind (fields_of sizes.now text.now) orders.now) result line.new }
{
    bare_line::dress(LineType::Group, line);
    wage_draft::draft(day, kind, LineType::Group, 0, 4, text, sizes, line)?;
    draft_worked(day, kind, orders, line)?;
    let last = lent_fields::sizes_behind(sizes);
    wage_draft::draft(
        day,
        kind,
        LineType::Group,
        6,
        7,
        lent_fields::text_behind(text, sizes, 4),
        last,
        line,
    )
}

// Writes a 301 from its given fields and its group's orders, which were judged.
fn write_judged(
    day: u64,
    kind: u64,
    text: &[u8],
    sizes: &[usize],
    orders: &[u8],
    out: &mut [u8],
) -> Answer
    requires { amounts (pieces orders.now) < 100000000000000000000 }
    ensures { Writes (first_of (group_draft day kind (fields_of sizes.now text.now) orders.now).answer (for_room (length out.old))) (group_draft day kind (fields_of sizes.now text.now) orders.now).line out.old result out.new }
{
    let mut line = [32u8; 1002];
    draft_group(day, kind, text, sizes, orders, &mut line)?;
    line_room::put_line(&line, out)
}

// Writes a 301 for a day and a kind from its fields 1 to 4 and 7, and from its group's lent 309 lines.
#[tactic(auto, unfolding(crate::specs::GroupWriter::group_answer), using(wage_orders::proofs::Theorems::accepted_small))]
pub fn write_group(
    day: u64,
    kind: u64,
    text: &[u8],
    sizes: &[usize],
    orders: &[u8],
    out: &mut [u8],
) -> Answer
    ensures { Writes (for_sizes 5 sizes.now text.now (group_answer day kind (fields_of sizes.now text.now) orders.now (length out.old))) (group_draft day kind (fields_of sizes.now text.now) orders.now).line out.old result out.new }
{
    if !lent_fields::is_lent_whole(text, sizes, 5) {
        return Err(Refusal::Size(refusal::nowhere()));
    }
    if !dates::is_date(day) {
        return Err(Refusal::Date(refusal::nowhere()));
    }
    if !line_room::is_kind(kind) {
        return Err(Refusal::Form(refusal::nowhere()));
    }
    wage_orders::judge(day, kind, orders)?;
    write_judged(day, kind, text, sizes, orders, out)
}
