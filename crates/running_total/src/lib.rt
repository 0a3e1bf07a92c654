// The running total: a line judged, and a tally brought up to date.
//
// Document 02, W5: a tally "lent to each step and brought up to date there", and 29. Here the tally comes and goes by value;
// `desk_tally` has the one function that is lent it.
#![tactic(auto)]

ghost use Rattle.std.specs.Prelude.{◌≡◌};
ghost use Rattle.running_total.specs.RunningTotal.{growth_in, tallied};

use condition::Judge;
use refusal::Refusal;
use tally::{Growth, Tally};

// The judge's record and the tally after a line.
#[derive(Clone, Copy)]
pub struct Tallied {
    pub judge: Judge,
    pub tally: Tally,
}

// What a line adds to a tally; one of no type adds nothing.
fn growth(s: &[u8]) -> Growth
    ensures { result ≡ growth_in s.now }
{
    match wage_line::read_type(s) {
        Ok(t) => standing::growth(t, s),
        Err(_) => Growth::Nothing,
    }
}

// One line: the record after it and the tally with what it adds, or 29 where that would be beyond the limits of a tally.
pub fn step(j: Judge, s: &[u8], t: Tally) -> Tallied
    ensures { result ≡ tallied j s.now t }
{
    let judge = judge::step(j, s);
    if condition::is_refused(judge.condition) {
        return Tallied { judge, tally: t };
    }
    let tally = tally::grow(t, growth(s));
    if tally::is_within(tally) {
        return Tallied { judge, tally };
    }
    Tallied {
        judge: condition::refused(j, Refusal::Overfull(condition::of_line(judge.read.lines))),
        tally: t,
    }
}
