// The boundary: answers as plain numbers, for callers in other languages.
//
// Number 0 is acceptance, the others are the refusals of documents 01 and 02. Nothing is lost: `numbers_tell_all` of the
// crate refusal.
#![tactic(auto)]

ghost use Rattle.std.specs.Prelude.{◌≡◌};
ghost use Rattle.boundary.specs.Told.{accepted, refusal, told_of, value_told, verdict_told, number_told, valued};

use refusal::{Answer, Refusal};
use verdict::Verdict;

// An answer: number 0 is acceptance, another one of the refusals; its line, field and byte, and for 15 the needed number.
#[repr(C)]
#[derive(Clone, Copy)]
pub struct Told {
    pub number: usize,
    pub line: usize,
    pub field: usize,
    pub byte: usize,
    pub needed: usize,
}

// An answer with a value: a digit, a count, cents, or how many bytes were written; 0 where it is a refusal.
#[repr(C)]
#[derive(Clone, Copy)]
pub struct Valued {
    pub told: Told,
    pub value: usize,
}

// Acceptance.
pub fn accept() -> Told
    ensures { result ≡ accepted }
{
    Told {
        number: 0,
        line: 0,
        field: 0,
        byte: 0,
        needed: 0,
    }
}

// A refusal.
pub fn refuse(r: Refusal) -> Told
    ensures { result ≡ refusal r }
{
    let p = refusal::told(r);
    let line = p.line;
    let field = p.field;
    let byte = p.byte;
    let number = refusal::number(r) as usize;
    Told {
        number,
        line,
        field,
        byte,
        needed: refusal::needed(r),
    }
}

// An answer.
#[tactic(auto, unfolding(crate::specs::Told::told_of))]
pub fn tell(a: Answer) -> Told
    ensures { result ≡ told_of a }
{
    match a {
        Ok(()) => accept(),
        Err(r) => refuse(r),
    }
}

// A verdict, told of no place: a 3 tells its byte.
pub fn tell_rule(verdict: Verdict) -> Told
    ensures { result ≡ verdict_told verdict }
{
    tell(verdict::told_in(verdict, 0))
}

// A verdict that its caller has as a number, told of no place: a 3 tells its byte.
pub fn tell_verdict(verdict: usize) -> Told
    ensures { result ≡ number_told verdict }
{
    tell(verdict::answer_in(verdict, 0))
}

// Acceptance with a value.
pub fn accept_value(n: usize) -> Valued
    ensures { result ≡ valued accepted n }
{
    Valued {
        told: accept(),
        value: n,
    }
}

// A refusal where a value was asked for.
pub fn refuse_value(r: Refusal) -> Valued
    ensures { result ≡ valued (refusal r) 0 }
{
    Valued {
        told: refuse(r),
        value: 0,
    }
}

// A value, or the refusal where there is none.
#[tactic(auto, unfolding(crate::specs::Told::value_told))]
pub fn tell_valued(value: Result<usize, Refusal>) -> Valued
    ensures { result ≡ value_told value }
{
    match value {
        Ok(n) => accept_value(n),
        Err(r) => refuse_value(r),
    }
}
