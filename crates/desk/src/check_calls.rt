// Check digits, accounts and references: the calls of `desk_checks`, exported.

ghost use Rattle.std.specs.Prelude.{◌≡◌, cond, eqb};
ghost use Rattle.check_digits.specs.Answers.{check_answer, make_answer};
ghost use Rattle.account.specs.Answers.{iban_verdict, oib_verdict};
ghost use Rattle.reference.specs.Answers.{reference_verdict};
ghost use Rattle.boundary.specs.Told.{told_of, value_told, verdict_told, no_rule, valued};

use boundary::{Told, Valued};
use check_digits::Rule;

// Checks digits that end in their check digit, by rule 0 (INI) or 1 (MOD 11,10), since C has numbers for
// enums; another rule is 5.
#[unsafe(no_mangle)]
pub extern "C" fn lanecockle_check_digits(rule: u32, digits: &[u8]) -> Told
    ensures { result ≡ cond (eqb rule 0) (told_of (check_answer Rule.Ini digits.now)) (cond (eqb rule 1) (told_of (check_answer Rule.Mod1110 digits.now)) no_rule) }
{
    desk_checks::lanecockle_check_digits(rule, digits)
}

// Makes the check digit of one to nineteen digits, by rule 0 (INI) or 1 (MOD 11,10), since C has numbers for
// enums; another rule is 5.
#[unsafe(no_mangle)]
pub extern "C" fn lanecockle_make_digit(rule: u32, digits: &[u8]) -> Valued
    ensures { result ≡ cond (eqb rule 0) (value_told (make_answer Rule.Ini digits.now)) (cond (eqb rule 1) (value_told (make_answer Rule.Mod1110 digits.now)) (valued no_rule 0)) }
{
    desk_checks::lanecockle_make_digit(rule, digits)
}

// An IBAN.
#[unsafe(no_mangle)]
pub extern "C" fn lanecockle_iban(text: &[u8]) -> Told
    ensures { result ≡ verdict_told (iban_verdict text.now) }
{
    desk_checks::lanecockle_iban(text)
}

// An OIB.
#[unsafe(no_mangle)]
pub extern "C" fn lanecockle_oib(text: &[u8]) -> Told
    ensures { result ≡ verdict_told (oib_verdict text.now) }
{
    desk_checks::lanecockle_oib(text)
}

// A reference under its model.
#[unsafe(no_mangle)]
pub extern "C" fn lanecockle_reference(model: &[u8], text: &[u8]) -> Told
    ensures { result ≡ verdict_told (reference_verdict model.now text.now) }
{
    desk_checks::lanecockle_reference(model, text)
}
