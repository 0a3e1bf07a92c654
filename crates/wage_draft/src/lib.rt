// A wage line drafted from its fields: each put at its place, and judged there.
//
// Document 01, "The wage file", the writer: "the judge's for the fields, 4 (another length) first in each". A line is
// drafted in scratch room of 1,002 bytes, so that no refusal touches the caller's.
#![tactic(auto)]

ghost use Rattle.std.specs.Prelude.{◌≡◌, ◌-◌, get_or, length, take, drop};
ghost use Rattle.wage_places.specs.Places.{spots, no_spot};
ghost use Rattle.lent_fields.specs.Fields.{fields_of};
ghost use Rattle.wage_draft.specs.Draft.{placed, drafted, in_scratch, Drafts};

use refusal::{Answer, Place, Refusal};
use wage_places::LineType;

// A field put at the place of an order, and judged there.
fn place(day: u64, kind: u64, t: LineType, k: usize, f: &[u8], line: &mut [u8]) -> Answer
    ensures { Drafts (placed day kind t (get_or (spots t) k no_spot) f.now line.old) result line.new }
{
    let p = wage_places::spot_at(t, k);
    if f.len() != p.size {
        return Err(Refusal::Length(Place {
            line: 0,
            field: p.field,
            byte: p.start,
        }));
    }
    room::put(line, p.start, f);
    wage_fields::judge_place(day, kind, t, k, line)
}

// The places from one order up to another, their fields one behind the other.
#[tactic(auto, using(crate::proofs::Laws::draft_done))]
fn draft_in(
    day: u64,
    kind: u64,
    t: LineType,
    first: usize,
    last: usize,
    text: &[u8],
    sizes: &[usize],
    line: &mut [u8],
) -> Answer
    ensures { Drafts (drafted day kind t (take (last - first) (drop first (spots t))) (fields_of sizes.now text.now) line.old) result line.new }
{
    let count = wage_places::count(t);
    let mut at: usize = 0;
    for k in first..last.min(count) {
        let end = lent_fields::end_of(text, at, lent_fields::size_at(sizes, k - first));
        place(day, kind, t, k, &text[at..end], line)?;
        at = end;
    }
    Ok(())
}

// Those places in scratch room that has the line's size; only a draft that is accepted is put back.
#[tactic(auto, unfolding(crate::specs::Draft::in_scratch), using(crate::proofs::Laws::put_whole))]
fn draft_aside(
    day: u64,
    kind: u64,
    t: LineType,
    first: usize,
    last: usize,
    text: &[u8],
    sizes: &[usize],
    scratch: &mut [u8],
    line: &mut [u8],
) -> Answer
    requires { (length scratch.old ≡ 1002) × (length line.old ≡ 1002) }
    ensures { Drafts (in_scratch line.old (drafted day kind t (take (last - first) (drop first (spots t))) (fields_of sizes.now text.now) line.old)) result line.new }
{
    room::put(scratch, 0, line);
    draft_in(day, kind, t, first, last, text, sizes, scratch)?;
    room::put(line, 0, scratch);
    Ok(())
}

// The places from one order up to another on a lent line of 1,002 bytes, which a refusal leaves as it was.
#[tactic(auto, unfolding(crate::specs::Draft::in_scratch))]
pub fn draft(
    day: u64,
    kind: u64,
    t: LineType,
    first: usize,
    last: usize,
    text: &[u8],
    sizes: &[usize],
    line: &mut [u8],
) -> Answer
    ensures { Drafts (in_scratch line.old (drafted day kind t (take (last - first) (drop first (spots t))) (fields_of sizes.now text.now) line.old)) result line.new }
{
    if line.len() != 1002 {
        return Err(Refusal::Size(refusal::nowhere()));
    }
    let mut scratch = [0u8; 1002];
    draft_aside(day, kind, t, first, last, text, sizes, &mut scratch, line)
}
