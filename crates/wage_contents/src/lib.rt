// What a place of a wage line may hold: a number, an OIB, a date, an IBAN or a currency, one rule for each.
//
// Document 01, "The wage file". Each rule answers a verdict, since it does not know where its place stands: within a
// field 3 with its byte counted within the place, 5, 6, 11. An IBAN goes by `account::iban_passes` and
// `account::check_iban`: W7 changes what is behind those names. What only a 309 holds is the crate `order_contents`.
#![tactic(auto)]

ghost use Rattle.std.specs.Prelude.{◌≡◌, drop};
ghost use Rattle.wage_contents.specs.Contents.{tested, among_verdict, oib_place_verdict, employer_verdict, date_verdict, iban_place_verdict, currency_verdict};

use classes::Class;
use verdict::{Fault, Verdict};

// ---------------------------------------------------------------------------
// Tests

// 3 with its byte, then a fault, unless a test holds.
#[tactic(auto, unfolding(crate::specs::Contents::tested))]
pub fn judge_tested(class: Class, f: &[u8], right: bool, fault: Fault) -> Verdict
    ensures { result ≡ tested class f.now right fault }
{
    text::judge(class, f)?;
    verdict::only_if(right, fault)
}

// ---------------------------------------------------------------------------
// Numbers and dates

// Digits, one of three numbers: 3, 5.
#[tactic(auto, unfolding(crate::specs::Contents::among_verdict))]
pub fn judge_among(a: u64, b: u64, c: u64, f: &[u8]) -> Verdict
    ensures { result ≡ among_verdict a b c f.now }
{
    let v = sums::number(f);
    judge_tested(
        Class::Digits,
        f,
        (v == a) | ((v == b) | (v == c)),
        Fault::Form,
    )
}

// An OIB, or zeros where they may stand for none: 3, 5, 6.
#[tactic(auto, unfolding(crate::specs::Contents::oib_place_verdict))]
pub fn judge_oib(absent: bool, f: &[u8]) -> Verdict
    ensures { result ≡ oib_place_verdict absent f.now }
{
    text::judge(Class::Digits, f)?;
    if text::all_of(Class::Zeros, f) {
        verdict::only_if(absent, Fault::Form)
    } else {
        verdict::only_if(account::oib_passes(f), Fault::Check)
    }
}

// The last of three employer's fields, two of which are not zero: 3, 5.
#[tactic(auto, unfolding(crate::specs::Contents::employer_verdict))]
pub fn judge_employer(before: &[u8], last: &[u8], f: &[u8]) -> Verdict
    ensures { result ≡ employer_verdict before.now last.now f.now }
{
    let a = text::all_of(Class::Zeros, before);
    let b = text::all_of(Class::Zeros, last);
    let c = text::all_of(Class::Zeros, f);
    judge_tested(Class::Digits, f, !((a & b) | ((a | b) & c)), Fault::Form)
}

// A date from one to another: 3, 11.
#[tactic(auto, unfolding(crate::specs::Contents::date_verdict))]
pub fn judge_date(first: u64, last: u64, f: &[u8]) -> Verdict
    ensures { result ≡ date_verdict first last f.now }
{
    let v = sums::number(f);
    judge_tested(
        Class::Digits,
        f,
        dates::is_date(v) & ((first <= v) & (v <= last)),
        Fault::Date,
    )
}

// ---------------------------------------------------------------------------
// IBAN, currency

// What stands behind the first 21 bytes of a place.
fn behind(f: &[u8]) -> &[u8]
    ensures { result.now ≡ drop 21 f.now }
{
    if f.len() < 21 {
        return &f[..0];
    }
    &f[21..]
}

// An IBAN with blanks behind it, or all blank where that may be: 3, 5, 6. Most are right: that is asked first.
#[tactic(auto, using(crate::proofs::Laws::account_right), unfolding(crate::specs::Contents::iban_place_verdict))]
pub fn judge_iban(blank: bool, f: &[u8]) -> Verdict
    ensures { result ≡ iban_place_verdict blank f.now }
{
    let ended = text::all_blank(behind(f));
    if ended & account::iban_passes(text::front(f, 21)) {
        return Ok(());
    }
    text::judge(Class::Place, f)?;
    if blank & text::all_blank(f) {
        return Ok(());
    }
    verdict::only_if(ended, Fault::Form)?;
    account::check_iban(text::front(f, 21))
}

// `EUR`, or blank where that may be: 5.
#[tactic(auto, unfolding(crate::specs::Contents::currency_verdict))]
pub fn judge_currency(blank: bool, f: &[u8]) -> Verdict
    ensures { result ≡ currency_verdict blank f.now }
{
    verdict::only_if(
        (blank & text::all_blank(f)) | (f == b"EUR".as_slice()),
        Fault::Form,
    )
}
