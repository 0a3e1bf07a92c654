// The desk's call that judges a line with a lent tally, for callers in other languages.
//
// Document 02, W5. Document 01, "The forms we expect": "A small tally struct lent by &mut and changed in place by one thin
// function over a covered adder". That function is `lanecockle_judge_step_tally`; what it does is `by_value`'s. A
// caller in this language goes by `lent`, whose contract speaks of no reference. include/lanecockle.h declares the call for C.
// No call has a `requires`: whatever numbers and bytes arrive get an answer.
#![tactic(auto)]

ghost use Rattle.std.specs.Prelude.{◌≡◌};
ghost use Rattle.desk_tally.specs.Tallied.{tallied_of};

use desk_record::Record;
use tally::Tally;

// The record and the tally after a line.
#[derive(Clone, Copy)]
pub struct Tallied {
    pub record: Record,
    pub tally: Tally,
}

// One line, with the tally by value.
#[tactic(auto, unfolding(crate::specs::Tallied::tallied_of))]
fn by_value(record: Record, line: &[u8], t: Tally) -> Tallied
    ensures { result ≡ tallied_of «record» line.now t }
{
    let next = running_total::step(desk_record::judge_from(record), line, t);
    Tallied {
        record: desk_record::record_from(next.judge),
        tally: next.tally,
    }
}

// One line: the record after it, and the lent tally brought up to date.
pub fn lanecockle_judge_step_tally(record: Record, line: &[u8], tally: &mut Tally) -> Record
    ensures { (result ≡ (tallied_of «record» line.now tally.old).«record»)
        × (tally.new ≡ (tallied_of «record» line.now tally.old).tally) }
{
    let next = by_value(record, line, *tally);
    *tally = next.tally;
    next.record
}

// The same for a caller that holds its tally by value: a copy of it is lent.
pub fn lent(record: Record, line: &[u8], tally: Tally) -> Tallied
    ensures { result ≡ tallied_of «record» line.now tally }
{
    let mut mine = tally;
    let after = lanecockle_judge_step_tally(record, line, &mut mine);
    Tallied {
        record: after,
        tally: mine,
    }
}
