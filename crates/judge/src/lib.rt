// The judge of a wage file: one line at a step, with a record that goes in and comes back.
//
// Document 01, "The wage file". A refusal stays in the record. A record that the judge did not make gets an answer too: no
// public call has a `requires`.
#![tactic(auto)]

ghost use Rattle.std.specs.Prelude.{◌≡◌, true};
ghost use Rattle.condition.specs.Record.{is_sound};
ghost use Rattle.judge.specs.Judge.{type_step, stepped};

use condition::Judge;
use refusal::Refusal;
use wage_places::LineType;

// ---------------------------------------------------------------------------
// A step

// A line of a type, from a sound record.
fn type_step(j: Judge, t: LineType, s: &[u8]) -> Judge
    requires { is_sound j ≡ true }
    ensures { result ≡ type_step j s.now t }
{
    let next = j.read.lines + 1;
    if let Err(fault) = standing::judge_standing(j.condition, j.group, t) {
        return condition::refused(j, verdict::told(fault, condition::of_line(next)));
    }
    match wage_fields::judge_places(j.day, j.kind, t, s) {
        Ok(()) => standing::after(j, t, s),
        Err(r) => condition::refused(j, refusal::in_line(next, r)),
    }
}

// One line: the record after it.
pub fn step(j: Judge, s: &[u8]) -> Judge
    ensures { result ≡ stepped j s.now }
{
    if condition::is_refused(j.condition) {
        return j;
    }
    if condition::is_sound(j) & (j.read.lines < 1000000) {
        match wage_line::read_type(s) {
            Ok(t) => type_step(j, t, s),
            Err(r) => condition::refused(j, refusal::in_line(j.read.lines + 1, r)),
        }
    } else {
        condition::refused(j, Refusal::Beyond(condition::of_line(1000001)))
    }
}
