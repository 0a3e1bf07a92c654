// What only a 309 holds: purpose, sign, model and reference, description and code, one rule for each.
//
// Document 01, "The wage file". Each rule answers a verdict, as those of `wage_contents` do: within a field 3 with its
// byte counted within the place, 5, 7, 8, 5 of a reference's contents, 9.
#![tactic(auto)]

ghost use Rattle.std.specs.Prelude.{◌≡◌, get_or};
ghost use Rattle.order_contents.specs.Contents.{purpose_place_verdict, sign_verdict, held_in, held_blank, held_verdict, reference_held, description_verdict, code_verdict};

use classes::Class;
use verdict::{Fault, Verdict};

// What a model's place holds: nothing, a text that is no model, or a model's number. Three cases, so no `Option`.
#[derive(Clone, Copy)]
pub enum Held {
    Blank,
    NoModel,
    Number(usize),
}

// ---------------------------------------------------------------------------
// Purpose, sign

// Blank, or letters: 5.
#[tactic(auto, unfolding(crate::specs::Contents::purpose_place_verdict))]
pub fn judge_purpose(f: &[u8]) -> Verdict
    ensures { result ≡ purpose_place_verdict f.now }
{
    verdict::only_if(
        text::all_blank(f) | text::all_of(Class::Letters, f),
        Fault::Form,
    )
}

// A place's byte: its first; 0, which no sign is, where it has none, as `sign_verdict` has it.
fn first_byte(f: &[u8]) -> u8
    ensures { result ≡ get_or f.now 0 0 }
{
    *f.first().unwrap_or(&0)
}

// One of three bytes: 5.
#[tactic(auto, unfolding(crate::specs::Contents::sign_verdict))]
pub fn judge_sign(a: u8, b: u8, c: u8, f: &[u8]) -> Verdict
    ensures { result ≡ sign_verdict a b c f.now }
{
    let x = first_byte(f);
    verdict::only_if((x == a) | ((x == b) | (x == c)), Fault::Form)
}

// ---------------------------------------------------------------------------
// Model and reference

// What a model's place holds, read once for the model, its reference and a code.
#[tactic(auto, unfolding(crate::specs::Contents::held_in))]
pub fn model_in(m: &[u8]) -> Held
    ensures { result ≡ held_in m.now }
{
    if text::all_blank(m) {
        return Held::Blank;
    }
    match model_text::number(m) {
        Some(n) => Held::Number(n),
        None => Held::NoModel,
    }
}

// A model's place by what it holds: 5, 7.
#[tactic(auto, unfolding(crate::specs::Contents::held_verdict))]
pub fn judge_model(held: Held) -> Verdict
    ensures { result ≡ held_verdict held }
{
    match held {
        Held::Blank => Ok(()),
        Held::NoModel => Err(Fault::Form),
        Held::Number(n) => verdict::only_if(models::rules(n).handled, Fault::Model),
    }
}

// A reference by what its model's place holds: 3, 8, 5, 9, and the model's own 5 and 7.
#[tactic(auto, unfolding(crate::specs::Contents::reference_held))]
pub fn judge_reference(held: Held, f: &[u8]) -> Verdict
    ensures { result ≡ reference_held held f.now }
{
    let g = text::trim(f);
    match held {
        Held::Blank => wage_contents::judge_tested(Class::Reference, g, g.len() == 0, Fault::Parts),
        Held::NoModel => Err(Fault::Form),
        Held::Number(n) => reference::numbered(n, g),
    }
}

// ---------------------------------------------------------------------------
// Description, code

// A description: 3, 5. It is tested as a whole; only a wrong byte is looked for.
#[tactic(auto, using(text::proofs::Laws::all_passes), unfolding(crate::specs::Contents::description_verdict, wage_contents::specs::Contents::tested))]
pub fn judge_description(f: &[u8]) -> Verdict
    ensures { result ≡ description_verdict f.now }
{
    if !text::all_described(f) {
        text::judge(Class::Description, f)?;
    }
    verdict::only_if(!text::all_blank(f), Fault::Form)
}

// Whether a model's place holds nothing.
fn is_blank(held: Held) -> bool
    ensures { result ≡ held_blank held }
{
    matches!(held, Held::Blank)
}

// A code of 004's list, by what the recipient's model's place holds: 3, 5.
#[tactic(auto, unfolding(crate::specs::Contents::code_verdict))]
pub fn judge_code(kind: u64, recipient: Held, f: &[u8]) -> Verdict
    ensures { result ≡ code_verdict kind (held_blank recipient) f.now }
{
    let blank = is_blank(recipient);
    let v = sums::number(f);
    wage_contents::judge_tested(
        Class::Digits,
        f,
        codes::is_code(v) & !((kind == 5) & ((v == 500) & blank)),
        Fault::Form,
    )
}
