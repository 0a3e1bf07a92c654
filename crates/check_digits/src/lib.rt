// Check digits: MOD 11,10 and INI checked and made.
//
// The definitions are in specs/CheckDigit.antt, as document 01 says them. The code goes once from left to right,
// in one loop for both rules, over a small record (`Run`): a rule of a later request is one more arm of `step`,
// `started` and `digit_for`. No sum grows with the number of digits, so no call asks for a length.
#![tactic(auto)]

ghost use Rattle.std.specs.Prelude.{◌≡◌, ◌<◌, ◌+◌, ◌%◌};
ghost use Rattle.text.specs.Digits.{digits_of};
ghost use Rattle.check_digits.specs.CheckDigit.{carry, digit_for, check_digit, passes};
ghost use Rattle.check_digits.specs.Mirror.{Small, run_start, step_of, read_of, digit_of};
ghost use Rattle.check_digits.specs.Answers.{sized, check_answer, make_answer};

use classes::Class;
use refusal::{Answer, Refusal};

// The rules by which one digit checks the digits before it.
#[derive(Clone, Copy)]
pub enum Rule {
    Ini,
    Mod1110,
}

// What has been read of the digits so far: for INI the sum of the digits and the sum of those sums, both over 11;
// for MOD 11,10 the number p.
#[derive(Clone, Copy)]
pub struct Run {
    pub sum: u64,
    pub sums: u64,
}

// The remainder of a number below twice the modulus, with no division.
fn folded(x: u64, m: u64) -> u64
    requires { (x < m + m) × (m < 100) }
    ensures { result ≡ x % m }
{
    if x < m { x } else { x - m }
}

// MOD 11,10: the number p after one more digit.
fn carried(p: u64, d: u64) -> u64
    requires { (p < 11) × (d < 10) }
    ensures { result ≡ carry p d }
{
    let t = folded(p + d, 10);
    if t == 0 {
        return 9;
    }
    folded(t + t, 11)
}

// Where each rule starts.
fn started(rule: Rule) -> Run
    ensures { result ≡ run_start rule }
{
    match rule {
        Rule::Ini => Run { sum: 0, sums: 0 },
        Rule::Mod1110 => Run { sum: 10, sums: 0 },
    }
}

// INI: one more digit.
fn summed(run: Run, d: u64) -> Run
    requires { Small run × (d < 10) }
    ensures { result ≡ step_of Rule.Ini run d }
{
    let sum = run.sum;
    let sums = run.sums;
    let a = folded(sum + d, 11);
    let b = folded(sums + a, 11);
    Run { sum: a, sums: b }
}

// One more digit.
fn step(rule: Rule, run: Run, d: u64) -> Run
    requires { Small run × (d < 10) }
    ensures { result ≡ step_of rule run d }
{
    match rule {
        Rule::Ini => summed(run, d),
        Rule::Mod1110 => {
            let sum = run.sum;
            let p = carried(sum, d);
            Run { sum: p, sums: 0 }
        }
    }
}

// One more byte: what is no digit is passed over.
fn read(rule: Rule, run: Run, b: u8) -> Run
    requires { Small run }
    ensures { result ≡ read_of rule run b }
{
    if !b.is_ascii_digit() {
        return run;
    }
    step(rule, run, (b - b'0') as u64)
}

// INI: the digit for a remainder over 11.
fn ini_digit(r: u64) -> u8
    requires { r < 11 }
    ensures { result ≡ digit_for Rule.Ini r }
{
    if r < 2 {
        return 0;
    }
    (11 - r) as u8
}

// The digit that completes what was read.
fn digit_for(rule: Rule, run: Run) -> u8
    requires { Small run }
    ensures { result ≡ digit_of rule run }
{
    let p = run.sum;
    let q = run.sums;
    match rule {
        Rule::Ini => ini_digit(folded(p + q, 11)),
        Rule::Mod1110 => ((11 - p) % 10) as u8,
    }
}

// The check digit, 0 to 9, of the digits of a text; what is no digit is passed over.
pub fn check_digit(rule: Rule, s: &[u8]) -> u8
    ensures { result ≡ check_digit rule (digits_of s.now) }
{
    let run = s.iter().fold(started(rule), |run, b| read(rule, run, *b));
    digit_for(rule, run)
}

// Whether a text ends in the check digit of the digits before it.
pub fn ends_right(rule: Rule, s: &[u8]) -> bool
    ensures { result ≡ passes rule s.now }
{
    let Some((last, before)) = s.split_last() else {
        return false;
    };
    *last == b'0' + check_digit(rule, before)
}

// Whether a text has 1 to `most` bytes.
fn is_sized(most: usize, s: &[u8]) -> bool
    ensures { result ≡ sized 1 most s.now }
{
    (1..=most).contains(&s.len())
}

// Checks digits that end in their check digit: 1 for a length that is not 1 to 22, then 3 for a byte that is no
// digit, then 9.
pub fn checked(rule: Rule, s: &[u8]) -> Answer
    ensures { result ≡ check_answer rule s.now }
{
    if !is_sized(22, s) {
        return Err(Refusal::Size(refusal::nowhere()));
    }
    if !text::all_of(Class::Digits, s) {
        return Err(Refusal::Byte(refusal::nowhere()));
    }
    if ends_right(rule, s) {
        return Ok(());
    }
    Err(Refusal::Digit(refusal::nowhere()))
}

// Makes the check digit of one to nineteen digits: another length is 1, then a byte that is no digit 3.
pub fn make(rule: Rule, s: &[u8]) -> Result<u8, Refusal>
    ensures { result ≡ make_answer rule s.now }
{
    if !is_sized(19, s) {
        return Err(Refusal::Size(refusal::nowhere()));
    }
    if !text::all_of(Class::Digits, s) {
        return Err(Refusal::Byte(refusal::nowhere()));
    }
    Ok(check_digit(rule, s))
}
