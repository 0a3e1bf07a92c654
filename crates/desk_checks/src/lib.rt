// The desk's calls of check digits, accounts and references, for callers in other languages.
//
// Each call is thin: it calls the proved one and tells its answer by the crate boundary. include/lanecockle.h declares it
// for C. No call has a `requires`: whatever numbers and bytes arrive get an answer.
#![tactic(auto)]

ghost use Rattle.std.specs.Prelude.{◌≡◌, cond, eqb};
ghost use Rattle.check_digits.specs.Answers.{check_answer, make_answer};
ghost use Rattle.account.specs.Answers.{iban_verdict, oib_verdict};
ghost use Rattle.reference.specs.Answers.{reference_verdict};
ghost use Rattle.boundary.specs.Told.{told_of, value_told, verdict_told, no_rule, valued};

use boundary::{Told, Valued};
use check_digits::Rule;
use refusal::Refusal;

// Checks digits that end in their check digit, by rule 0 (INI) or 1 (MOD 11,10), since C has numbers for
// enums; another rule is 5.
pub fn lanecockle_check_digits(rule: u32, digits: &[u8]) -> Told
    ensures { result ≡ cond (eqb rule 0) (told_of (check_answer Rule.Ini digits.now)) (cond (eqb rule 1) (told_of (check_answer Rule.Mod1110 digits.now)) no_rule) }
{
    if rule == 0 {
        return boundary::tell(check_digits::checked(Rule::Ini, digits));
    }
    if rule == 1 {
        return boundary::tell(check_digits::checked(Rule::Mod1110, digits));
    }
    boundary::refuse(Refusal::Form(refusal::nowhere()))
}

// Makes the check digit of one to nineteen digits, by rule 0 (INI) or 1 (MOD 11,10), since C has numbers for
// enums; another rule is 5.
pub fn lanecockle_make_digit(rule: u32, digits: &[u8]) -> Valued
    ensures { result ≡ cond (eqb rule 0) (value_told (make_answer Rule.Ini digits.now)) (cond (eqb rule 1) (value_told (make_answer Rule.Mod1110 digits.now)) (valued no_rule 0)) }
{
    if rule == 0 {
        return boundary::tell_valued(check_digits::make(Rule::Ini, digits).map(usize::from));
    }
    if rule == 1 {
        return boundary::tell_valued(check_digits::make(Rule::Mod1110, digits).map(usize::from));
    }
    boundary::refuse_value(Refusal::Form(refusal::nowhere()))
}

// An IBAN.
pub fn lanecockle_iban(text: &[u8]) -> Told
    ensures { result ≡ verdict_told (iban_verdict text.now) }
{
    boundary::tell_rule(account::iban(text))
}

// An OIB.
pub fn lanecockle_oib(text: &[u8]) -> Told
    ensures { result ≡ verdict_told (oib_verdict text.now) }
{
    boundary::tell_rule(account::oib(text))
}

// A reference under its model.
pub fn lanecockle_reference(model: &[u8], text: &[u8]) -> Told
    ensures { result ≡ verdict_told (reference_verdict model.now text.now) }
{
    boundary::tell_rule(reference::reference(model, text))
}
