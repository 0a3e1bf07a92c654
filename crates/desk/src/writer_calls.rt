// The writers of wage lines: the calls of `desk_writers`, exported.

ghost use Rattle.std.specs.Prelude.{length};
ghost use Rattle.wage_writer.specs.Writer.{label_answer, label_draft, order_answer, order_draft};
ghost use Rattle.group_writer.specs.GroupWriter.{group_answer, group_draft};
ghost use Rattle.line_room.specs.LineRoom.{closing_answer};
ghost use Rattle.bare_line.specs.Bare.{bare_line};
ghost use Rattle.lent_fields.specs.Fields.{fields_of, for_sizes};
ghost use Rattle.desk_writers.specs.Writes.{WritesLine};

use boundary::Told;
use wage_places::LineType;

// Writes a 300 for a day.
#[unsafe(no_mangle)]
pub extern "C" fn lanecockle_write_label(
    day: u64,
    text: &[u8],
    sizes: &[usize],
    out: &mut [u8],
) -> Told
    ensures { WritesLine (for_sizes 8 sizes.now text.now (label_answer day (fields_of sizes.now text.now) (length out.old))) (label_draft day (fields_of sizes.now text.now)).line out.old result out.new }
{
    desk_writers::lanecockle_write_label(day, text, sizes, out)
}

// Writes a 309 for a day and a kind.
#[unsafe(no_mangle)]
pub extern "C" fn lanecockle_write_order(
    day: u64,
    kind: u64,
    text: &[u8],
    sizes: &[usize],
    out: &mut [u8],
) -> Told
    ensures { WritesLine (for_sizes 16 sizes.now text.now (order_answer day kind (fields_of sizes.now text.now) (length out.old))) (order_draft day kind (fields_of sizes.now text.now)).line out.old result out.new }
{
    desk_writers::lanecockle_write_order(day, kind, text, sizes, out)
}

// Writes a 301 for a day and a kind, of its group's lent 309 lines.
#[unsafe(no_mangle)]
pub extern "C" fn lanecockle_write_group(
    day: u64,
    kind: u64,
    text: &[u8],
    sizes: &[usize],
    orders: &[u8],
    out: &mut [u8],
) -> Told
    ensures { WritesLine (for_sizes 5 sizes.now text.now (group_answer day kind (fields_of sizes.now text.now) orders.now (length out.old))) (group_draft day kind (fields_of sizes.now text.now) orders.now).line out.old result out.new }
{
    desk_writers::lanecockle_write_group(day, kind, text, sizes, orders, out)
}

// Writes a 399, for a day.
#[unsafe(no_mangle)]
pub extern "C" fn lanecockle_write_closing(day: u64, out: &mut [u8]) -> Told
    ensures { WritesLine (closing_answer day (length out.old)) (bare_line LineType.Closing) out.old result out.new }
{
    desk_writers::lanecockle_write_closing(day, out)
}
