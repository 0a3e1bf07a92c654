// The check groups of a reference, each a stretch of its text between the ends of its parts, and with them all that a model asks
// of a formed text.
//
// Document 01, "Reference models". Whoever asks has read the parts and knows where they end (crate `parts`).
#![tactic(auto)]

ghost use Rattle.std.specs.Prelude.{◌≡◌};
ghost use Rattle.groups.specs.Mirror.{group_at, groups_at, obeys_at};

use models::{Group, Model};

// Whether a group ends in its check digit; with no part present it is not checked, and where a part is missing it goes
// on to the end of the text.
fn group_at(g: Group, ends: usize, s: &[u8]) -> bool
    ensures { result ≡ group_at g ends s.now }
{
    let skipped = usize::from(g.skipped);
    let joins = usize::from(g.joins);
    joins == 0
        || parts::end_of(skipped, ends) == 0
        || check_digits::ends_right(
            g.rule,
            stretches::stretch(skipped, skipped + joins - 1, ends, s),
        )
}

// Whether each group of a text, whose parts end so, ends in its check digit.
pub fn groups_at(model: Model, ends: usize, s: &[u8]) -> bool
    ensures { result ≡ groups_at model.groups ends s.now }
{
    model.groups.iter().all(|g| group_at(*g, ends, s))
}

// Whether a text, whose parts end so, has all that its model asks of a formed one: contents and check digits.
#[tactic(auto, unfolding(crate::specs::Mirror::obeys_at))]
pub fn obeys_at(model: Model, ends: usize, s: &[u8]) -> bool
    ensures { result ≡ obeys_at model ends s.now }
{
    part_contents::contents_at(model, ends, s) && groups_at(model, ends, s)
}
