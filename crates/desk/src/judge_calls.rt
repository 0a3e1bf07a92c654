// The judge of a wage file: the calls of `desk_judge`, exported.

ghost use Rattle.std.specs.Prelude.{◌≡◌};
ghost use Rattle.condition.specs.Record.{begun, ended};
ghost use Rattle.judge.specs.Judge.{stepped, steps};
ghost use Rattle.wage_line.specs.Pieces.{pieces};
ghost use Rattle.wage_file.specs.File.{file_answer};
ghost use Rattle.desk_record.specs.Record.{judge_of, record_of};
ghost use Rattle.desk_judge.specs.Wages.{ended_of, place_part};

use desk_judge::Ended;
use desk_record::Record;
use text::Part;

// A fresh judge for a day, YYYYMMDD.
#[unsafe(no_mangle)]
pub extern "C" fn lanecockle_judge_begin(day: u64) -> Record
    ensures { result ≡ record_of (begun day) }
{
    desk_judge::lanecockle_judge_begin(day)
}

// One line: the record after it.
#[unsafe(no_mangle)]
pub extern "C" fn lanecockle_judge_step(record: Record, line: &[u8]) -> Record
    ensures { result ≡ record_of (stepped (judge_of «record») line.now) }
{
    desk_judge::lanecockle_judge_step(record, line)
}

// The lines of a part of a file: the record after them.
#[unsafe(no_mangle)]
pub extern "C" fn lanecockle_judge_lines(record: Record, bytes: &[u8]) -> Record
    ensures { result ≡ record_of (steps (judge_of «record») (pieces bytes.now)) }
{
    desk_judge::lanecockle_judge_lines(record, bytes)
}

// What the file comes to.
#[unsafe(no_mangle)]
pub extern "C" fn lanecockle_judge_end(record: Record) -> Ended
    ensures { result ≡ ended_of (ended (judge_of «record»)) }
{
    desk_judge::lanecockle_judge_end(record)
}

// A whole wage file.
#[unsafe(no_mangle)]
pub extern "C" fn lanecockle_wage_file(day: u64, bytes: &[u8]) -> Ended
    ensures { result ≡ ended_of (file_answer day bytes.now) }
{
    desk_judge::lanecockle_wage_file(day, bytes)
}

// Where a place of a wage line stands; else no part.
#[unsafe(no_mangle)]
pub extern "C" fn lanecockle_wage_place(line: &[u8], field: usize) -> Part
    ensures { result ≡ place_part line.now field }
{
    desk_judge::lanecockle_wage_place(line, field)
}
