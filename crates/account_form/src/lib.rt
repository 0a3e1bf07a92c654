// The account form of a kuna slip's field 10: seven digits of the bank, a hyphen and ten digits of the account.
//
// Document 02, W1, with source 001: "an IBAN or seven digits, a hyphen and ten digits (an account starts with a digit)".
// Request W7 adds its two checks to `judge`.
#![tactic(auto)]

ghost use Rattle.std.specs.Prelude.{◌≡◌};
ghost use Rattle.account_form.specs.AccountForm.{account_formed, account_form_verdict, account_or_iban_verdict};

use classes::Class;
use verdict::{Fault, Verdict};

// Whether a text is seven digits, a hyphen and ten digits.
pub fn is_formed(s: &[u8]) -> bool
    ensures { result ≡ account_formed s.now }
{
    s.len() == 18
        && s[7] == b'-'
        && text::all_of(Class::Digits, &s[0..7])
        && text::all_of(Class::Digits, &s[8..])
}

// An account: 3 with its byte, 4, 5.
pub fn judge(s: &[u8]) -> Verdict
    ensures { result ≡ account_form_verdict s.now }
{
    text::judge(Class::AccountForm, s)?;
    verdict::only_if(s.len() == 18, Fault::Length)?;
    verdict::only_if(is_formed(s), Fault::Form)
}

// An account, where the text begins with a digit; else an IBAN.
pub fn account_or_iban(s: &[u8]) -> Verdict
    ensures { result ≡ account_or_iban_verdict s.now }
{
    if !s.is_empty() && classes::is_digit(s[0]) {
        judge(s)
    } else {
        account::iban(s)
    }
}
