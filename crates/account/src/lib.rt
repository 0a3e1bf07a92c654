// Accounts: IBAN and OIB, each behind one name.
//
// Document 01, "Check digits". What an IBAN's check is stands in `iban_passes`: W3 made it quick behind that name, W7 changes what it
// asks, and whoever judges an IBAN goes by it.
#![tactic(auto)]

ghost use Rattle.std.specs.Prelude.{◌≡◌, true, ◌*◌, ◌%◌, ◌<◌, ◌≤◌, length};
ghost use Rattle.text.specs.Bytes.{all_of};
ghost use Rattle.text.specs.Digits.{digits_of, value_of};
ghost use Rattle.account.specs.Account.{iban_formed, oib_passes};
ghost use Rattle.account.specs.Answers.{is_iban, iban_check_verdict, iban_verdict, oib_verdict};

use check_digits::Rule;
use classes::Class;
use verdict::{Fault, Verdict};

// Whether a text is `HR` and nineteen digits.
pub fn is_iban_formed(s: &[u8]) -> bool
    ensures { result ≡ iban_formed s.now }
{
    s.len() == 21 && s[0] == b'H' && s[1] == b'R' && text::all_of(Class::Digits, &s[2..])
}

// A run of digits over a modulus: each digit times what its place leaves, `place` for the last one. No digit waits for another: where
// the numbers and the run's length are constants the compiler takes many digits at a time, and divides nothing.
fn run_over(modulus: u32, place: u32, s: &[u8]) -> u32
    requires { (all_of Class.Digits s.now ≡ true) × ((length s.now ≤ 20) × ((place < modulus) × (modulus < 100))) }
    ensures { (result % modulus ≡ value_of (digits_of s.now) * place % modulus) × (result ≤ 20000) }
{
    let mut sum = 0;
    let mut at = place;
    for b in s.iter().rev() {
        // widened first: the compiler then takes all the 48s off at once
        sum += (*b as u32 - 48) * at;
        at = at * 10 % modulus;
    }
    sum
}

// Whether a text is an IBAN: its form, its check digits, 02 to 98, and its number, which leaves 1 over 97. In it the bank's seven digits
// stand before sixteen others and the account's ten before six: 10^16 leaves 62 over 97, and 10^6 leaves 27.
pub fn iban_passes(s: &[u8]) -> bool
    ensures { result ≡ is_iban s.now }
{
    if !is_iban_formed(s) {
        return false;
    }
    let k = sums::number(&s[2..4]);
    if !(2..=98).contains(&k) {
        return false;
    }
    let sum = run_over(97, 62, &s[4..11]) + run_over(97, 27, &s[11..21]);
    (sum as u64 + 172700 + k) % 97 == 1
}

// An IBAN's form, then its check: 5, 6. Most are right: that is asked first.
pub fn check_iban(s: &[u8]) -> Verdict
    ensures { result ≡ iban_check_verdict s.now }
{
    if iban_passes(s) {
        return Ok(());
    }
    verdict::only_if(is_iban_formed(s), Fault::Form)?;
    Err(Fault::Check)
}

// An IBAN: 3 with its byte, 4, 5, 6. Of one that is right nothing else is asked.
#[tactic(auto, using(crate::proofs::Theorems::iban_right))]
pub fn iban(s: &[u8]) -> Verdict
    ensures { result ≡ iban_verdict s.now }
{
    let check = check_iban(s);
    if check.is_ok() {
        return Ok(());
    }
    text::judge(Class::Account, s)?;
    verdict::only_if(s.len() == 21, Fault::Length)?;
    check
}

// Whether an OIB's check holds.
#[tactic(auto, unfolding(crate::specs::Account::oib_passes))]
pub fn oib_passes(s: &[u8]) -> bool
    ensures { result ≡ oib_passes s.now }
{
    check_digits::ends_right(Rule::Mod1110, s)
}

// An OIB: 3 with its byte, 4, 6.
pub fn oib(s: &[u8]) -> Verdict
    ensures { result ≡ oib_verdict s.now }
{
    text::judge(Class::Digits, s)?;
    verdict::only_if(s.len() == 11, Fault::Length)?;
    verdict::only_if(oib_passes(s), Fault::Check)
}
