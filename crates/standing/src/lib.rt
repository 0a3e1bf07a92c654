// Whether a line may come where the judge stands, and what a right one leaves in its record.
//
// Document 01, "The wage file": the refusals 10, 12 and 13; "A 301 or 399 straight after a 301 is 10". Document 02, W5: what
// a line adds to a tally, that of the judge's record and one that a caller lends.
#![tactic(auto)]

ghost use Rattle.std.specs.Prelude.{◌≡◌, true, cond, ◌≤◌};
ghost use Rattle.sums.specs.Sums.{number_in};
ghost use Rattle.wage_places.specs.Places.{part_of};
ghost use Rattle.condition.specs.Record.{is_sound};
ghost use Rattle.standing.specs.Standing.{growth_of, group_after, opened, after as afterLine, whole_verdict, stand_verdict};

use condition::{Condition, Counts, Judge, Open};
use tally::Growth;
use verdict::{Fault, Verdict};
use wage_places::LineType;

// ---------------------------------------------------------------------------
// 10, 12, 13

// The end of the group that is open: 10, 12, 13.
fn judge_whole(c: Condition, g: Open) -> Verdict
    ensures { result ≡ whole_verdict c g }
{
    verdict::only_if(
        matches!(c, Condition::Grouped) & (0 < g.counted),
        Fault::Misplaced,
    )?;
    verdict::only_if(g.counted == g.declared, Fault::Orders)?;
    verdict::only_if(sums::is_same(g.total, g.promised), Fault::Sum)
}

// A line of a type, where the judge stands: 10, 12, 13.
#[tactic(auto, unfolding(crate::specs::Standing::stand_verdict))]
pub fn judge_standing(c: Condition, g: Open, t: LineType) -> Verdict
    ensures { result ≡ stand_verdict c g t }
{
    match t {
        LineType::Label => verdict::only_if(matches!(c, Condition::Fresh), Fault::Misplaced),
        LineType::Group => {
            if matches!(c, Condition::Labelled) {
                return Ok(());
            }
            judge_whole(c, g)
        }
        LineType::Order => {
            verdict::only_if(matches!(c, Condition::Grouped), Fault::Misplaced)?;
            verdict::only_if(g.counted < g.declared, Fault::Orders)
        }
        LineType::Closing => judge_whole(c, g),
    }
}

// ---------------------------------------------------------------------------
// A right line

// The number in a place of a line.
fn number_at(t: LineType, field: usize, s: &[u8]) -> u64
    ensures { result ≡ number_in (part_of t field s.now) }
{
    sums::number(wage_places::part(wage_places::find(t, field), s))
}

// The group that a first line opens.
fn opening(s: &[u8]) -> Open
    ensures { result ≡ opened s.now }
{
    Open {
        declared: number_at(LineType::Group, 5, s),
        promised: sums::written(
            wage_places::part(wage_places::find(LineType::Group, 6), s),
            100,
        ),
        counted: 0,
        total: sums::nothing(),
    }
}

// What a line of a type adds to a tally.
pub fn growth(t: LineType, s: &[u8]) -> Growth
    ensures { result ≡ growth_of t s.now }
{
    match t {
        LineType::Label => Growth::Nothing,
        LineType::Group => Growth::Group,
        LineType::Order => Growth::Order(number_at(LineType::Order, 10, s)),
        LineType::Closing => Growth::Nothing,
    }
}

// The group that is open after a line that adds so much.
fn group_after(g: Open, more: Growth, s: &[u8]) -> Open
    requires { g.counted ≤ 1000000 }
    ensures { result ≡ group_after g s.now more }
{
    match more {
        Growth::Nothing => g,
        Growth::Group => opening(s),
        Growth::Order(cents) => Open {
            counted: g.counted + 1,
            total: sums::add(g.total, cents, 100),
            ..g
        },
    }
}

// A sound record after a right line.
fn after_sound(j: Judge, t: LineType, s: &[u8]) -> Judge
    requires { is_sound j ≡ true }
    ensures { result ≡ afterLine j s.now t }
{
    let more = growth(t, s);
    let read = Counts {
        lines: j.read.lines + 1,
        tally: tally::grow(j.read.tally, more),
    };
    let group = group_after(j.group, more, s);
    match t {
        LineType::Label => Judge {
            condition: Condition::Labelled,
            kind: number_at(LineType::Label, 2, s),
            read,
            group,
            ..j
        },
        LineType::Group => Judge {
            condition: Condition::Grouped,
            read,
            group,
            ..j
        },
        LineType::Order => Judge {
            condition: Condition::Grouped,
            read,
            group,
            ..j
        },
        LineType::Closing => Judge {
            condition: Condition::Closed,
            read,
            group,
            ..j
        },
    }
}

// The record after a right line; one that the judge did not make stays as it was.
pub fn after(j: Judge, t: LineType, s: &[u8]) -> Judge
    ensures { result ≡ cond (is_sound j) (afterLine j s.now t) j }
{
    if condition::is_sound(j) {
        return after_sound(j, t, s);
    }
    j
}
