// Wet slips: the fillings of an IBAN and of a reference that the rules accept (document 01, "Wet slips").
//
// The listing itself is that of `fillings`, over any rule; here stand the two rules, and the refusals before it.
#![tactic(auto)]

ghost use Rattle.std.specs.Prelude.{◌≡◌, ◌≤◌, length};
ghost use Rattle.text.specs.Bytes.{marks};
ghost use Rattle.account.specs.Answers.{is_iban};
ghost use Rattle.parts.specs.Mirror.{parts_found};
ghost use Rattle.reference.specs.Answers.{obeys};
ghost use Rattle.filling.specs.Filling.{fill};
ghost use Rattle.fillings.specs.Fillings.{fillings};
ghost use Rattle.fillings.specs.Answers.{left_by_listing};
ghost use Rattle.wet.specs.Wet.{wet_iban, iban_listing, aim_from, model_listing, number_listing, number_fillings, reference_listing, reference_fillings};

use classes::Class;
use fillings::Aim;
use models::Model;
use refusal::Refusal;

// Whether a text is `HR` and then digits or `?`.
fn is_wet_iban(s: &[u8]) -> bool
    ensures { result ≡ wet_iban s.now }
{
    if s.len() < 2 {
        return false;
    }
    if s[0] != 72 {
        return false;
    }
    if s[1] != 82 {
        return false;
    }
    text::all_of(Class::WetAccount, &s[2..])
}

// The fillings of an IBAN that the rules accept, ascending, at the front of `out`. Refusals: 1, 3, 16, 15.
pub fn list_iban(s: &[u8], out: &mut [u16]) -> Result<usize, Refusal>
    ensures { (result ≡ iban_listing s.now (length out.old)) × (out.new ≡ left_by_listing result (fillings is_iban s.now) out.old) }
{
    if s.len() != 21 {
        return Err(Refusal::Size(refusal::nowhere()));
    }
    if !is_wet_iban(s) {
        return Err(Refusal::Byte(refusal::nowhere()));
    }
    fillings::list_into(Aim::Iban, s, out)
}

// What is listed of a text under a model: the fillings have their parts where the first one, by 0, has them.
fn aimed(model: Model, s: &[u8]) -> Aim
    requires { length s.now ≤ 22 }
    ensures { result ≡ aim_from model (parts_found model (fill s.now 0)) }
{
    let n = s.len();
    let mut t = [0u8; 22];
    // A text of 22 bytes has room for its filling.
    let _ = filling::filled(s, 0, &mut t);
    match parts::parts(model, &t[..n]) {
        Some(ends) => Aim::Reference(model, ends),
        None => Aim::Unmendable,
    }
}

// The listing under a model: 7, then 15.
fn list_model(model: Model, s: &[u8], out: &mut [u16]) -> Result<usize, Refusal>
    requires { (length s.now ≤ 22) × (marks s.now ≤ 4) }
    ensures { (result ≡ model_listing model s.now (length out.old)) × (out.new ≡ left_by_listing result (fillings (obeys model) s.now) out.old) }
{
    if !model.handled {
        return Err(Refusal::Model(refusal::nowhere()));
    }
    fillings::list_into(aimed(model, s), s, out)
}

// The listing under a model's number: 5, then what the model says.
fn list_numbered(number: Option<usize>, s: &[u8], out: &mut [u16]) -> Result<usize, Refusal>
    requires { (length s.now ≤ 22) × (marks s.now ≤ 4) }
    ensures { (result ≡ number_listing number s.now (length out.old)) × (out.new ≡ left_by_listing result (number_fillings number s.now) out.old) }
{
    match number {
        Some(n) => list_model(models::rules(n), s, out),
        None => Err(Refusal::Form(refusal::nowhere())),
    }
}

// The fillings of a reference that its model accepts, ascending, at the front of `out`. Refusals: 1, 3, 16, 5, 7, 15.
pub fn list_reference(model: &[u8], s: &[u8], out: &mut [u16]) -> Result<usize, Refusal>
    ensures { (result ≡ reference_listing model.now s.now (length out.old)) × (out.new ≡ left_by_listing result (reference_fillings model.now s.now) out.old) }
{
    if 22 < s.len() {
        return Err(Refusal::Size(refusal::nowhere()));
    }
    if !text::all_of(Class::WetReference, s) {
        return Err(Refusal::Byte(refusal::nowhere()));
    }
    if 4 < text::count(63, s) {
        return Err(Refusal::Marks(refusal::nowhere()));
    }
    list_numbered(model_text::number(model), s, out)
}
