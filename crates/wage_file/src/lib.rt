// A whole wage file in lent memory, and the lines of a part of one.
//
// Document 01, "The wage file": a file gives the answer of its 1,002-byte pieces, one by one. The scan over its lines is
// left at the first refusal, which the record holds with its place.
#![tactic(auto)]

ghost use Rattle.std.specs.Prelude.{◌≡◌};
ghost use Rattle.wage_line.specs.Pieces.{pieces};
ghost use Rattle.judge.specs.Judge.{steps};
ghost use Rattle.wage_file.specs.File.{file_answer};

use condition::{Counts, Judge};
use refusal::Refusal;

// The lines of a part of a file, from a record on.
pub fn lines(from: Judge, s: &[u8]) -> Judge
    ensures { result ≡ steps from (pieces s.now) }
{
    let mut j = from;
    let mut pieces = s.chunks(1002);
    // A loop with a label, as document 01 asks of what reads a wage file (docs/DECISIONS.md).
    'lines: loop {
        let condition = j.condition;
        if condition::is_refused(condition) {
            break 'lines j;
        }
        match pieces.next() {
            Some(line) => j = judge::step(j, line),
            None => break 'lines j,
        }
    }
}

// The whole file, for a day of submission.
pub fn whole(day: u64, s: &[u8]) -> Result<Counts, Refusal>
    ensures { result ≡ file_answer day s.now }
{
    condition::end(lines(condition::begin(day), s))
}
