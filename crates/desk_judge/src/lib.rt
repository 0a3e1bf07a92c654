// The desk's calls that judge a wage file, for callers in other languages.
//
// Each call is thin: it calls the proved one and tells its answer by the crate boundary. include/lanecockle.h declares it
// for C. No call has a `requires`: whatever numbers and bytes arrive get an answer.
#![tactic(auto)]

ghost use Rattle.std.specs.Prelude.{◌≡◌};
ghost use Rattle.condition.specs.Record.{begun, ended};
ghost use Rattle.judge.specs.Judge.{stepped, steps};
ghost use Rattle.wage_line.specs.Pieces.{pieces};
ghost use Rattle.wage_file.specs.File.{file_answer};
ghost use Rattle.desk_record.specs.Record.{judge_of, record_of};
ghost use Rattle.desk_judge.specs.Wages.{ended_of, place_part};

use boundary::Told;
use condition::Counts;
use desk_record::Record;
use refusal::Refusal;
use sums::Sum;
use text::Part;

// What the end of a wage file tells.
#[repr(C)]
#[derive(Clone, Copy)]
pub struct Ended {
    pub told: Told,
    pub lines: usize,
    pub groups: usize,
    pub orders: usize,
    pub total: Sum,
}

// What a wage file comes to.
#[tactic(auto, unfolding(crate::specs::Wages::ended_of))]
fn tell_ending(e: Result<Counts, Refusal>) -> Ended
    ensures { result ≡ ended_of e }
{
    match e {
        Ok(c) => Ended {
            told: boundary::accept(),
            lines: c.lines,
            groups: c.tally.groups,
            orders: c.tally.orders,
            total: c.tally.total,
        },
        Err(r) => Ended {
            told: boundary::refuse(r),
            lines: 0,
            groups: 0,
            orders: 0,
            total: sums::nothing(),
        },
    }
}

// Where a place of a wage line stands; else no part.
#[tactic(auto, unfolding(crate::specs::Wages::place_part))]
fn place_part(line: &[u8], field: usize) -> Part
    ensures { result ≡ place_part line.now field }
{
    match wage_line::read_type(line) {
        Ok(t) => {
            let p = wage_places::find(t, field);
            Part {
                start: p.start,
                length: p.size,
            }
        }
        Err(_) => Part {
            start: 0,
            length: 0,
        },
    }
}

// A fresh judge for a day, YYYYMMDD.
pub fn lanecockle_judge_begin(day: u64) -> Record
    ensures { result ≡ record_of (begun day) }
{
    desk_record::record_from(condition::begin(day))
}

// One line: the record after it.
pub fn lanecockle_judge_step(record: Record, line: &[u8]) -> Record
    ensures { result ≡ record_of (stepped (judge_of «record») line.now) }
{
    desk_record::record_from(judge::step(desk_record::judge_from(record), line))
}

// The lines of a part of a file: the record after them.
pub fn lanecockle_judge_lines(record: Record, bytes: &[u8]) -> Record
    ensures { result ≡ record_of (steps (judge_of «record») (pieces bytes.now)) }
{
    desk_record::record_from(wage_file::lines(desk_record::judge_from(record), bytes))
}

// What the file comes to.
pub fn lanecockle_judge_end(record: Record) -> Ended
    ensures { result ≡ ended_of (ended (judge_of «record»)) }
{
    tell_ending(condition::end(desk_record::judge_from(record)))
}

// A whole wage file.
pub fn lanecockle_wage_file(day: u64, bytes: &[u8]) -> Ended
    ensures { result ≡ ended_of (file_answer day bytes.now) }
{
    tell_ending(wage_file::whole(day, bytes))
}

// Where a place of a wage line stands; else no part.
pub fn lanecockle_wage_place(line: &[u8], field: usize) -> Part
    ensures { result ≡ place_part line.now field }
{
    place_part(line, field)
}
