// The rules of a 309: what each of its places must hold.
//
// Document 01, "The wage file", its list for 309. A rule answers a verdict.
// It goes by a place's order, and each arm names its places, so that in a line of 1,002 bytes the compiler knows their bounds.
#![tactic(auto)]

ghost use Rattle.std.specs.Prelude.{◌≡◌, get_or};
ghost use Rattle.wage_places.specs.declared.LineType.TheVariants.{Order};
ghost use Rattle.wage_places.specs.Places.{spots, no_spot, part_at};
ghost use Rattle.order_contents.specs.Contents.{held_in};
ghost use Rattle.order_rules.specs.Rules.{order_rule};

use classes::Class;
use order_contents::Held;
use verdict::Verdict;
use wage_places::{LineType, part_at};

// What a model's place of a 309 holds.
fn model_at(k: usize, s: &[u8]) -> Held
    ensures { result ≡ held_in (part_at (get_or (spots Order) k no_spot) s.now) }
{
    order_contents::model_in(part_at(LineType::Order, k, s))
}

// A 309's rule for a place.
#[tactic(auto, unfolding(wage_places::specs::Places::spots, wage_places::specs::Places::spot_in))]
pub fn order_rule(kind: u64, k: usize, s: &[u8]) -> Verdict
    ensures { result ≡ order_rule kind (get_or (spots Order) k no_spot).field (part_at (get_or (spots Order) k no_spot) s.now) s.now }
{
    match k {
        0 => wage_contents::judge_iban(false, part_at(LineType::Order, 0, s)),
        1 => Ok(()),
        2 => wage_contents::judge_among(0, 191, 191, part_at(LineType::Order, 2, s)),
        3 => order_contents::judge_model(model_at(3, s)),
        4 => order_contents::judge_reference(model_at(3, s), part_at(LineType::Order, 4, s)),
        5 => order_contents::judge_purpose(part_at(LineType::Order, 5, s)),
        6 => order_contents::judge_description(part_at(LineType::Order, 6, s)),
        7 => text::judge(Class::Digits, part_at(LineType::Order, 7, s)),
        8 => order_contents::judge_model(model_at(8, s)),
        9 => order_contents::judge_reference(model_at(8, s), part_at(LineType::Order, 9, s)),
        10 => wage_contents::judge_among(0, 1, 2, part_at(LineType::Order, 10, s)),
        11 => wage_contents::judge_currency(true, part_at(LineType::Order, 11, s)),
        12 => order_contents::judge_sign(32, 48, 51, part_at(LineType::Order, 12, s)),
        13 => order_contents::judge_sign(32, 48, 48, part_at(LineType::Order, 13, s)),
        14 => order_contents::judge_code(kind, model_at(8, s), part_at(LineType::Order, 14, s)),
        15 => wage_contents::judge_oib(kind != 5, part_at(LineType::Order, 15, s)),
        _ => Ok(()),
    }
}
