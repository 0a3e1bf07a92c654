// The judge's record as plain numbers, for callers in other languages.
//
// A record of any numbers stands for a judge: one that the judge did not make gets an answer too.
#![tactic(auto)]

ghost use Rattle.std.specs.Prelude.{◌≡◌};
ghost use Rattle.refusal.specs.Refusal.{refusal_of};
ghost use Rattle.desk_record.specs.Record.{condition_of, judge_of, record_of, condition_told};

use boundary::Told;
use condition::{Condition, Counts, Judge, Open};
use refusal::{Place, Refusal};
use sums::Sum;
use tally::Tally;

// The judge's record: condition 0 fresh, 1 after the label, 2 inside a group, 3 closed, 4 refused, with the refusal in
// `told`. `file_total` is what all orders came to so far, `total` what those of the open group did.
#[repr(C)]
#[derive(Clone, Copy)]
pub struct Record {
    pub condition: usize,
    pub told: Told,
    pub day: u64,
    pub kind: u64,
    pub lines: usize,
    pub groups: usize,
    pub orders: usize,
    pub file_total: Sum,
    pub declared: u64,
    pub promised: Sum,
    pub counted: u64,
    pub total: Sum,
}

// The refusal that a number tells; a number of no other refusal is 17.
fn refusal_from(t: Told) -> Refusal
    ensures { result ≡ refusal_of t.number (record { line = t.line; field = t.field; byte = t.byte }) t.needed }
{
    let p = Place {
        line: t.line,
        field: t.field,
        byte: t.byte,
    };
    refusal::made(t.number, p, t.needed)
}

// The condition that a number tells.
fn condition_from(n: usize, t: Told) -> Condition
    ensures { result ≡ condition_of n t }
{
    let beyond = Refusal::Beyond(Place {
        line: 1000001,
        field: 0,
        byte: 0,
    });
    match n {
        0 => Condition::Fresh,
        1 => Condition::Labelled,
        2 => Condition::Grouped,
        3 => Condition::Closed,
        4 => Condition::Refused(refusal_from(t)),
        _ => Condition::Refused(beyond),
    }
}

// The judge that a record stands for.
#[tactic(auto, unfolding(crate::specs::Record::judge_of))]
pub fn judge_from(r: Record) -> Judge
    ensures { result ≡ judge_of r }
{
    Judge {
        condition: condition_from(r.condition, r.told),
        day: r.day,
        kind: r.kind,
        read: Counts {
            lines: r.lines,
            tally: Tally {
                groups: r.groups,
                orders: r.orders,
                total: r.file_total,
            },
        },
        group: Open {
            declared: r.declared,
            promised: r.promised,
            counted: r.counted,
            total: r.total,
        },
    }
}

// The refusal of a condition, if it has one.
fn condition_told(c: Condition) -> Told
    ensures { result ≡ condition_told c }
{
    if condition::is_refused(c) {
        return boundary::refuse(condition::refusal_in(c));
    }
    boundary::accept()
}

// The record of a judge.
#[tactic(auto, unfolding(crate::specs::Record::record_of))]
pub fn record_from(j: Judge) -> Record
    ensures { result ≡ record_of j }
{
    Record {
        condition: condition::stage(j.condition),
        told: condition_told(j.condition),
        day: j.day,
        kind: j.kind,
        lines: j.read.lines,
        groups: j.read.tally.groups,
        orders: j.read.tally.orders,
        file_total: j.read.tally.total,
        declared: j.group.declared,
        promised: j.group.promised,
        counted: j.group.counted,
        total: j.group.total,
    }
}
