// Verdicts: what a rule says of a text before it is known where that stands.
//
// A verdict refuses nothing, or it is a fault, one of the refusals 3 to 13 without its place (specs/Verdict.antt). Rules are
// joined by `?`; whoever knows the place makes an answer of the verdict, once.
#![tactic(auto)]

ghost use Rattle.std.specs.Prelude.{◌≡◌};
ghost use Rattle.verdict.specs.Verdict.{only_if, refusal_at, verdict_byte, answer_of, answer_in, number_byte, verdict_number, number_answer};

use refusal::{Answer, Place, Refusal};

// What a rule finds wrong: the refusals 3 to 13 of document 01. A 3 tells the byte, counted from the text's first.
#[derive(Clone, Copy)]
pub enum Fault {
    Byte(usize),
    Length,
    Form,
    Check,
    Model,
    Parts,
    Digit,
    Misplaced,
    Date,
    Orders,
    Sum,
}

// What a rule says of a text.
pub type Verdict = Result<(), Fault>;

// A fault told of a place.
pub fn told(fault: Fault, place: Place) -> Refusal
    ensures { result ≡ refusal_at fault place }
{
    match fault {
        Fault::Byte(_) => Refusal::Byte(place),
        Fault::Length => Refusal::Length(place),
        Fault::Form => Refusal::Form(place),
        Fault::Check => Refusal::Check(place),
        Fault::Model => Refusal::Model(place),
        Fault::Parts => Refusal::Parts(place),
        Fault::Digit => Refusal::Digit(place),
        Fault::Misplaced => Refusal::Misplaced(place),
        Fault::Date => Refusal::Date(place),
        Fault::Orders => Refusal::Orders(place),
        Fault::Sum => Refusal::Sum(place),
    }
}

// The offending byte that a verdict tells; where it tells none, the first, 0, as document 01 says of every other refusal.
pub fn byte_of(verdict: Verdict) -> usize
    ensures { result ≡ verdict_byte verdict }
{
    match verdict {
        Err(Fault::Byte(byte)) => byte,
        _ => 0,
    }
}

// A verdict told of a field and a byte.
pub fn answer_of(verdict: Verdict, field: usize, byte: usize) -> Answer
    ensures { result ≡ answer_of verdict field byte }
{
    match verdict {
        Ok(()) => Ok(()),
        Err(fault) => Err(told(
            fault,
            Place {
                line: 0,
                field,
                byte,
            },
        )),
    }
}

// A verdict told of a field, the byte counted within it.
pub fn told_in(verdict: Verdict, field: usize) -> Answer
    ensures { result ≡ answer_in field verdict }
{
    answer_of(verdict, field, byte_of(verdict))
}

// The fault f, unless a test holds.
pub fn only_if(right: bool, fault: Fault) -> Verdict
    ensures { result ≡ only_if right fault }
{
    if right { Ok(()) } else { Err(fault) }
}

// ---------------------------------------------------------------------------
// A verdict as one number: 0 refuses nothing, 32 + i is a 3 at byte i, any other is the refusal of that number

// The offending byte that a number tells; 0 where it tells none.
fn byte_in(verdict: usize) -> usize
    ensures { result ≡ number_byte verdict }
{
    if 32 <= verdict {
        return verdict - 32;
    }
    0
}

// The number of the refusal that a number is.
fn number_in(verdict: usize) -> usize
    ensures { result ≡ verdict_number verdict }
{
    if 32 <= verdict {
        return 3;
    }
    verdict
}

// A verdict that its caller has as a number, told of a field, the byte counted within it.
pub fn answer_in(verdict: usize, field: usize) -> Answer
    ensures { result ≡ number_answer field verdict }
{
    if verdict == 0 {
        return Ok(());
    }
    let place = Place {
        line: 0,
        field,
        byte: byte_in(verdict),
    };
    Err(refusal::made(number_in(verdict), place, 0))
}
