// A line's places in order, each judged by the rule of its type of line.
//
// Document 01, "The wage file". The rules are the crates `label_rules`, `group_rules` and `order_rules`; where the places
// stand is the crate `wage_places`. A rule answers a verdict; only the place that is refused makes an answer of it.
#![tactic(auto)]

ghost use Rattle.std.specs.Prelude.{◌≡◌, get_or, ◌+◌, ◌-◌, ◌<◌, ◌^◌};
ghost use Rattle.verdict.specs.Verdict.{fault_byte, refusal_at};
ghost use Rattle.wage_places.specs.Places.{spots, no_spot};
ghost use Rattle.wage_fields.specs.Rules.{place_verdict, place_answer, spots_from, places_from, places_answer};

use refusal::{Answer, Place, Refusal};
use verdict::{Fault, Verdict};
use wage_places::{LineType, Spot};

// The rule of a place, under a day and a kind.
fn rule(day: u64, kind: u64, t: LineType, k: usize, s: &[u8]) -> Verdict
    ensures { result ≡ place_verdict day kind t (get_or (spots t) k no_spot) s.now }
{
    match t {
        LineType::Label => label_rules::label_rule(day, k, s),
        LineType::Group => group_rules::group_rule(day, k, s),
        LineType::Order => order_rules::order_rule(kind, k, s),
        LineType::Closing => Ok(()),
    }
}

// A fault told of its place in the line.
fn told(p: Spot, fault: Fault) -> Refusal
    requires { p.start + fault_byte fault < 2 ^ 64 }
    ensures { result ≡ refusal_at fault (record { line = 0; field = p.field; byte = p.start + fault_byte fault }) }
{
    let place = Place {
        line: 0,
        field: p.field,
        byte: p.start + verdict::byte_of(Err(fault)),
    };
    verdict::told(fault, place)
}

// The places from one order up to another, in order: a line of another size is refused, else the first refusal stands, with its
// field and byte.
fn judge_range(day: u64, kind: u64, t: LineType, first: usize, last: usize, s: &[u8]) -> Answer
    requires { first < last }
    ensures { result ≡ places_from day kind t (spots_from t first (last - first)) s.now }
{
    if s.len() != 1002 {
        return Err(Refusal::Size(refusal::nowhere()));
    }
    let mut k = first;
    // A loop with a label, which document 01 asks for in the reader of a wage line (docs/DECISIONS.md).
    'places: loop {
        if last <= k {
            break 'places Ok(());
        }
        match rule(day, kind, t, k, s) {
            Ok(()) => k += 1,
            Err(fault) => break 'places Err(told(wage_places::spot_at(t, k), fault)),
        }
    }
}

// One place of a line, by its order; past the last there is nothing to refuse.
pub fn judge_place(day: u64, kind: u64, t: LineType, k: usize, s: &[u8]) -> Answer
    ensures { result ≡ place_answer day kind t (get_or (spots t) k no_spot) s.now }
{
    let count = wage_places::count(t);
    if count < k {
        return judge_range(day, kind, t, count, count + 1, s);
    }
    judge_range(day, kind, t, k, k + 1, s)
}

// A line's places in order: the first refusal. A line without places has nothing to refuse.
pub fn judge_places(day: u64, kind: u64, t: LineType, s: &[u8]) -> Answer
    ensures { result ≡ places_answer day kind t s.now }
{
    let count = wage_places::count(t);
    if count == 0 {
        return Ok(());
    }
    judge_range(day, kind, t, 0, count, s)
}
