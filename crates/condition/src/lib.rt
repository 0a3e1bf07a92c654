// The judge's record: the condition that it stands in, what was read, and the group that is open; its beginning and end.
//
// Document 01, "The wage file": "The judge stands in one condition: fresh, after the label, inside a group, closed, or
// refused with its first refusal inside". Document 02, W5: acceptance tells the file's own total too, "kept in the judge's
// record".
#![tactic(auto)]

ghost use Rattle.std.specs.Prelude.{◌≡◌};
ghost use Rattle.condition.specs.Record.{stage_of, is_refused, refusal_in, refused_with, line_place, at_line, is_sound, begun, ended};

use refusal::{Place, Refusal};
use sums::Sum;
use tally::Tally;

// Where the judge stands.
#[derive(Clone, Copy)]
pub enum Condition {
    Fresh,
    // After the label.
    Labelled,
    // Inside a group.
    Grouped,
    Closed,
    // With its first refusal inside.
    Refused(Refusal),
}

// What was read so far, and what acceptance tells: lines, and the file's own tally.
#[derive(Clone, Copy)]
pub struct Counts {
    pub lines: usize,
    pub tally: Tally,
}

// The group that is open: what its first line declares, and what its orders come to so far.
#[derive(Clone, Copy)]
pub struct Open {
    pub declared: u64,
    pub promised: Sum,
    pub counted: u64,
    pub total: Sum,
}

// The judge's record: plain data. The day of submission is YYYYMMDD, the kind is the one that the label told, 4 or 5.
#[derive(Clone, Copy)]
pub struct Judge {
    pub condition: Condition,
    pub day: u64,
    pub kind: u64,
    pub read: Counts,
    pub group: Open,
}

// ---------------------------------------------------------------------------
// Conditions and refusals

// The number of a condition.
pub fn stage(c: Condition) -> usize
    ensures { result ≡ stage_of c }
{
    match c {
        Condition::Fresh => 0,
        Condition::Labelled => 1,
        Condition::Grouped => 2,
        Condition::Closed => 3,
        Condition::Refused(_) => 4,
    }
}

// Whether the judge has refused.
pub fn is_refused(c: Condition) -> bool
    ensures { result ≡ is_refused c }
{
    matches!(c, Condition::Refused(_))
}

// The refusal inside a condition; where there is none, 17.
pub fn refusal_in(c: Condition) -> Refusal
    ensures { result ≡ refusal_in c }
{
    let beyond = Refusal::Beyond(of_line(1000001));
    match c {
        Condition::Fresh => beyond,
        Condition::Labelled => beyond,
        Condition::Grouped => beyond,
        Condition::Closed => beyond,
        Condition::Refused(r) => r,
    }
}

// The place of a line alone: field 0 and byte 0.
pub fn of_line(line: usize) -> Place
    ensures { result ≡ line_place line }
{
    Place {
        line,
        field: 0,
        byte: 0,
    }
}

// A refusal of a line alone, by its number.
pub fn at_line(number: usize, line: usize) -> Refusal
    ensures { result ≡ at_line number line }
{
    refusal::made(number, of_line(line), 0)
}

// The record with a refusal, all else as it stood.
pub fn refused(j: Judge, r: Refusal) -> Judge
    ensures { result ≡ refused_with r j }
{
    Judge {
        condition: Condition::Refused(r),
        ..j
    }
}

// ---------------------------------------------------------------------------
// A sound record, and the beginning

// Whether no count is above 1,000,000, no group's sum is 10^20 or more and the file's total not 10^21 or more.
pub fn is_sound(j: Judge) -> bool
    ensures { result ≡ is_sound j }
{
    (j.read.lines <= 1000000)
        & tally::is_within(j.read.tally)
        & (j.group.declared <= 1000000)
        & (j.group.counted <= 1000000)
        & sums::fits(j.group.promised, 100)
        & sums::fits(j.group.total, 100)
}

// A fresh judge for a day, YYYYMMDD; one that has refused, where that is not a date.
pub fn begin(day: u64) -> Judge
    ensures { result ≡ begun day }
{
    let zero = sums::nothing();
    let fresh = Judge {
        condition: Condition::Fresh,
        day,
        kind: 0,
        read: Counts {
            lines: 0,
            tally: tally::zero(),
        },
        group: Open {
            declared: 0,
            promised: zero,
            counted: 0,
            total: zero,
        },
    };
    if dates::is_date(day) {
        return fresh;
    }
    refused(fresh, Refusal::Date(of_line(0)))
}

// ---------------------------------------------------------------------------
// The end

// What the file comes to.
#[tactic(auto, using(crate::proofs::Laws::not_closed), unfolding(crate::specs::Record::ended))]
pub fn end(j: Judge) -> Result<Counts, Refusal>
    ensures { result ≡ ended j }
{
    if is_refused(j.condition) {
        return Err(refusal_in(j.condition));
    }
    if is_sound(j) {
        if matches!(j.condition, Condition::Closed) {
            return Ok(j.read);
        }
        return Err(Refusal::Unfinished(of_line(j.read.lines + 1)));
    }
    Err(Refusal::Beyond(of_line(1000001)))
}
