// References: whether a text obeys its model, and what judging one answers.
//
// Document 01, "Reference models", and document 02, W4. A model is the value that `models` gives; `parts` reads the text,
// `part_contents` and `groups` check it.
#![tactic(auto)]

ghost use Rattle.std.specs.Prelude.{◌≡◌};
ghost use Rattle.models.specs.Models.{model_of};
ghost use Rattle.reference.specs.Answers.{obeys, modelled_verdict, reference_verdict};

use classes::Class;
use models::Model;
use verdict::{Fault, Verdict};

// Whether a text obeys a model: its parts, what they hold, and their check groups.
pub fn obeys(model: Model, s: &[u8]) -> bool
    ensures { result ≡ obeys model s.now }
{
    match parts::parts(model, s) {
        Some(ends) => groups::obeys_at(model, ends, s),
        None => false,
    }
}

// A reference under a model's rules: 7, then 3 with its byte, 4, 8, 5 and 9. What is formed has no byte for 3, so that only
// what is not is looked through for one; of an empty one nothing is asked.
#[tactic(auto, using(crate::proofs::Laws::text_read, crate::proofs::Laws::text_bare))]
fn judged(model: Model, s: &[u8]) -> Verdict
    ensures { result ≡ modelled_verdict model s.now }
{
    verdict::only_if(model.handled, Fault::Model)?;
    let Some(ends) = parts::parts(model, s) else {
        text::judge(Class::Reference, s)?;
        verdict::only_if(s.len() <= 22, Fault::Length)?;
        return Err(Fault::Parts);
    };
    if s.len() == 0 {
        return Ok(());
    }
    verdict::only_if(s.len() <= 22, Fault::Length)?;
    verdict::only_if(part_contents::contents_at(model, ends, s), Fault::Form)?;
    verdict::only_if(groups::groups_at(model, ends, s), Fault::Digit)
}

// A reference by its model's number. The rules are handed on as they come: kept in a local they would be copied.
pub fn numbered(n: usize, s: &[u8]) -> Verdict
    ensures { result ≡ modelled_verdict (model_of n) s.now }
{
    judged(models::rules(n), s)
}

// A reference by its model's text: 5 and 7 of the model, then 3 with its byte, 4, 8, 5 and 9 of the reference.
pub fn reference(model: &[u8], s: &[u8]) -> Verdict
    ensures { result ≡ reference_verdict model.now s.now }
{
    let n = model_text::number(model).ok_or(Fault::Form)?;
    numbered(n, s)
}
