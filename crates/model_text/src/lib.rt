// A model's text: `HR` and two digits, its number, and what judging it answers.
//
// Document 01, "Reference models". The rules of a model's number are the crate `models`.
#![tactic(auto)]

ghost use Rattle.std.specs.Prelude.{◌≡◌};
ghost use Rattle.model_text.specs.Texts.{model_number, model_verdict};

use verdict::{Fault, Verdict};

// The number of a model's text, `HR` and two digits.
pub fn number(s: &[u8]) -> Option<usize>
    ensures { result ≡ model_number s.now }
{
    match s {
        [b'H', b'R', a, b] => text::two_digits(*a, *b),
        _ => None,
    }
}

// A model's text: 5, then 7 where it is not handled.
pub fn judge(s: &[u8]) -> Verdict
    ensures { result ≡ model_verdict s.now }
{
    let n = number(s).ok_or(Fault::Form)?;
    verdict::only_if(models::rules(n).handled, Fault::Model)
}
