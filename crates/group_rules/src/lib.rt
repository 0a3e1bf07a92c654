// The rules of a 301: what each of its places must hold.
//
// Document 01, "The wage file", its list for 301. A rule answers a verdict.
// It goes by a place's order, and each arm names its places, so that in a line of 1,002 bytes the compiler knows their bounds.
#![tactic(auto)]

ghost use Rattle.std.specs.Prelude.{◌≡◌, get_or};
ghost use Rattle.wage_places.specs.declared.LineType.TheVariants.{Group};
ghost use Rattle.wage_places.specs.Places.{spots, no_spot, part_at};
ghost use Rattle.group_rules.specs.Rules.{group_rule};

use classes::Class;
use verdict::Verdict;
use wage_places::{LineType, part_at};

// A 301's rule for a place.
#[tactic(auto, unfolding(wage_places::specs::Places::spots))]
pub fn group_rule(day: u64, k: usize, s: &[u8]) -> Verdict
    ensures { result ≡ group_rule day (get_or (spots Group) k no_spot).field (part_at (get_or (spots Group) k no_spot) s.now) }
{
    match k {
        0 => wage_contents::judge_iban(false, part_at(LineType::Group, 0, s)),
        1 => wage_contents::judge_currency(false, part_at(LineType::Group, 1, s)),
        2 => wage_contents::judge_iban(true, part_at(LineType::Group, 2, s)),
        3 => wage_contents::judge_currency(true, part_at(LineType::Group, 3, s)),
        4 => text::judge(Class::Digits, part_at(LineType::Group, 4, s)),
        5 => text::judge(Class::Digits, part_at(LineType::Group, 5, s)),
        6 => wage_contents::judge_date(day, 99991231, part_at(LineType::Group, 6, s)),
        _ => Ok(()),
    }
}
