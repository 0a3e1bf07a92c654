// Wet slips: every filling of a text's unreadable digits that a rule accepts (document 01, "Wet slips").
//
// The listing is stated once, over any rule (specs/Fillings.antt): a changed rule moves `accepted` and nothing else
// here. As document 01 asks, the listing calls itself for each digit at the first open mark.
#![tactic(auto)]

ghost use Rattle.std.specs.Prelude.{◌≡◌, cond, [], ◌∷◌, suc, ◌*◌, ◌^◌, ◌≤◌, ◌<◌, length, take};
ghost use Rattle.text.specs.Bytes.{marks};
ghost use Rattle.fillings.specs.Fillings.{fillings};
ghost use Rattle.text.specs.Stands.{Stands};
ghost use Rattle.fillings.specs.Mirror.{block, accepts};
ghost use Rattle.fillings.specs.Answers.{listing, left_by_listing};

use classes::Class;
use models::Model;
use refusal::Refusal;

// What is listed: IBANs, references under a model, whose parts end so in every filling, or nothing, where no filling mends the form.
#[derive(Clone, Copy)]
pub enum Aim {
    Iban,
    Reference(Model, usize),
    Unmendable,
}

// Whether a filled text is accepted.
#[tactic(auto, unfolding(crate::specs::Mirror::accepts))]
fn accepted(aim: Aim, s: &[u8]) -> bool
    ensures { result ≡ accepts aim s.now }
{
    match aim {
        Aim::Iban => account::iban_passes(s),
        Aim::Reference(model, ends) => groups::obeys_at(model, ends, s),
        Aim::Unmendable => false,
    }
}

// A text of at most 22 bytes, held by value.
fn held(s: &[u8]) -> [u8; 22]
    requires { length s.now ≤ 22 }
    ensures { take (length s.now) result ≡ s.now }
{
    let mut t = [0; 22];
    t[..s.len()].copy_from_slice(s);
    t
}

// A text with no mark left: its number is written at the place `at`, if there is room, where the text is accepted.
fn leaf(aim: Aim, s: &[u8], number: u32, out: &mut [u16], at: usize) -> usize
    requires { (number < 10000) × (at ≤ number) }
    ensures { Stands out.old at (cond (accepts aim s.now) (number ∷ []) []) result out.new }
{
    if !accepted(aim, s) {
        return at;
    }
    if at < out.len() {
        out[at] = number as u16;
        return at + 1;
    }
    at + 1
}

// Lists the fillings of the first `n` bytes of `t`, of which `left` are marks, from the place `at` on: each digit
// at the first mark leaves one mark fewer. `number` has the digits that were put at earlier marks.
fn list(
    aim: Aim,
    t: &[u8; 22],
    n: usize,
    left: usize,
    number: u32,
    out: &mut [u16],
    at: usize,
) -> usize
    requires { (n ≤ 22) × ((left ≡ marks (take n t.now)) × ((suc number * 10 ^ left ≤ 10000) × (at ≤ number * 10 ^ left))) }
    ensures { Stands out.old at (block (accepts aim) (take n t.now) number) result out.new }
{
    // A part of an array behind a reference is not covered; a part of a slice is.
    let s: &[u8] = t;
    if left == 0 {
        return leaf(aim, &s[..n], number, out, at);
    }
    let Some(i) = text::first_bad(Class::Dry, &s[..n]) else {
        return at;
    };
    // One copy for all ten digits: each is put over the one before it.
    let mut w = *t;
    let mut next = at;
    for d in 0..10 {
        w[i] = b'0' + d as u8;
        next = list(aim, &w, n, left - 1, number * 10 + d, out, next);
    }
    next
}

// Lists the fillings of a text: the room is judged here alone, and a form that no filling can mend is a count of 0 here
// alone. Four marks have ten thousand at most; where `out` has room for fewer they are counted first, so that a refusal
// leaves it as it was. Refusals: 1 (above 22 bytes), 16, 15; W13's 26 will be asked behind 16.
pub fn list_into(aim: Aim, s: &[u8], out: &mut [u16]) -> Result<usize, Refusal>
    ensures { (result ≡ listing (accepts aim) s.now (length out.old)) × (out.new ≡ left_by_listing result (fillings (accepts aim) s.now) out.old) }
{
    let n = s.len();
    if 22 < n {
        return Err(Refusal::Size(refusal::nowhere()));
    }
    let left = text::count(b'?', s);
    if 4 < left {
        return Err(Refusal::Marks(refusal::nowhere()));
    }
    if let Aim::Unmendable = aim {
        return Ok(0);
    }
    let t = held(s);
    if 10000 <= out.len() {
        return Ok(list(aim, &t, n, left, 0, out, 0));
    }
    let mut scratch: [u16; 1] = [0];
    let count = list(aim, &t, n, left, 0, &mut scratch, 0);
    if count > out.len() {
        return Err(Refusal::Room(refusal::nowhere(), count));
    }
    list(aim, &t, n, left, 0, out, 0);
    Ok(count)
}
