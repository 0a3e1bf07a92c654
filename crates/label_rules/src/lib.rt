// The rules of a 300: what each of its places must hold.
//
// Document 01, "The wage file", its list for 300. A rule answers a verdict.
// It goes by a place's order, and each arm names its places, so that in a line of 1,002 bytes the compiler knows their bounds.
#![tactic(auto)]

ghost use Rattle.std.specs.Prelude.{◌≡◌, get_or};
ghost use Rattle.wage_places.specs.declared.LineType.TheVariants.{Label};
ghost use Rattle.wage_places.specs.Places.{spots, no_spot, part_at};
ghost use Rattle.label_rules.specs.Rules.{label_rule};

use classes::Class;
use verdict::Verdict;
use wage_places::{LineType, part_at};

// A 300's rule for a place.
#[tactic(auto, unfolding(wage_places::specs::Places::spots, wage_places::specs::Places::spot_in))]
pub fn label_rule(day: u64, k: usize, s: &[u8]) -> Verdict
    ensures { result ≡ label_rule day (get_or (spots Label) k no_spot).field (part_at (get_or (spots Label) k no_spot) s.now) s.now }
{
    match k {
        0 => wage_contents::judge_date(day, day, part_at(LineType::Label, 0, s)),
        1 => wage_contents::judge_among(4, 5, 5, part_at(LineType::Label, 1, s)),
        2 => wage_contents::judge_among(0, 0, 0, part_at(LineType::Label, 2, s)),
        3 => wage_contents::judge_among(1, 2, 2, part_at(LineType::Label, 3, s)),
        4 => wage_contents::judge_oib(true, part_at(LineType::Label, 4, s)),
        5 => text::judge(Class::Digits, part_at(LineType::Label, 5, s)),
        6 => wage_contents::judge_employer(
            part_at(LineType::Label, 4, s),
            part_at(LineType::Label, 5, s),
            part_at(LineType::Label, 6, s),
        ),
        7 => wage_contents::judge_oib(false, part_at(LineType::Label, 7, s)),
        _ => Ok(()),
    }
}
