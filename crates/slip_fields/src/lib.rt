// The fields of a slip, each judged by its number behind one name, `judge_field`, in the slip's currency.
//
// Document 01, "The slip's fourteen fields"; document 02, W1: a kuna slip differs from a euro slip in fields 2 and 10 alone.
// Within a field 3 with its byte, 4, 5, then 6 to 9; the byte is counted within the field, and whoever knows where the field
// stands says so.
#![tactic(auto)]

ghost use Rattle.std.specs.Prelude.{◌≡◌};
ghost use Rattle.slip_fields.specs.Fields.{word_verdict, sized_verdict, most_of, currency_text, payee_verdict, field_verdict};

use classes::Class;
use verdict::{Fault, Verdict};

// The currency of a slip: euro, or kuna before 2023.
#[derive(Clone, Copy)]
pub enum Currency {
    Euro,
    Kuna,
}

// A required word: 5.
fn judge_word(word: &[u8], s: &[u8]) -> Verdict
    ensures { result ≡ word_verdict word.now s.now }
{
    verdict::only_if(word == s, Fault::Form)
}

// The word of a currency.
fn judge_currency(currency: Currency, s: &[u8]) -> Verdict
    ensures { result ≡ word_verdict (currency_text currency) s.now }
{
    match currency {
        Currency::Euro => judge_word(b"EUR", s),
        Currency::Kuna => judge_word(b"HRK", s),
    }
}

// The account of the payee: an IBAN, and in a kuna slip an account by its number too.
fn judge_payee(currency: Currency, s: &[u8]) -> Verdict
    ensures { result ≡ payee_verdict currency s.now }
{
    match currency {
        Currency::Euro => account::iban(s),
        Currency::Kuna => account_form::account_or_iban(s),
    }
}

// Bytes of a class, and one of two lengths: 3 with its byte, 4.
fn judge_sized(class: Class, a: usize, b: usize, s: &[u8]) -> Verdict
    ensures { result ≡ sized_verdict class a b s.now }
{
    text::judge(class, s)?;
    verdict::only_if((s.len() == a) | (s.len() == b), Fault::Length)
}

// The most characters of a text field.
fn most_of(n: usize) -> usize
    ensures { result ≡ most_of n }
{
    match n {
        4 => 30,
        5 => 27,
        6 => 27,
        7 => 25,
        8 => 25,
        9 => 27,
        _ => 35,
    }
}

// Field n of a slip in a currency, after the field `before` it.
#[tactic(auto, unfolding(crate::specs::Fields::field_verdict))]
pub fn judge_field(currency: Currency, n: usize, before: &[u8], s: &[u8]) -> Verdict
    ensures { result ≡ field_verdict currency n before.now s.now }
{
    match n {
        1 => judge_word(b"HRVHUB30", s),
        2 => judge_currency(currency, s),
        3 => judge_sized(Class::Digits, 15, 15, s),
        10 => judge_payee(currency, s),
        11 => model_text::judge(s),
        12 => reference::reference(before, s),
        13 => judge_sized(Class::Letters, 0, 4, s),
        _ => characters::judge(most_of(n), s),
    }
}
