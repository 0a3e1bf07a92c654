// What a model asks its parts to hold: a given number, or a code of kinds of personal income.
//
// Document 02, W4, with source 003 (HR69). Whoever asks has read the parts and knows where they end (crate `parts`).
#![tactic(auto)]

ghost use Rattle.std.specs.Prelude.{◌≡◌};
ghost use Rattle.part_contents.specs.Contents.{holds};
ghost use Rattle.part_contents.specs.Mirror.{asked_at, contents_at};

use models::{Asked, Content, Model};

// Whether a part holds what is asked of it.
#[tactic(auto, unfolding(crate::specs::Contents::holds))]
fn is_held(content: Content, p: &[u8]) -> bool
    ensures { result ≡ holds content p.now }
{
    match content {
        Content::Number(n) => sums::number(p) == u64::from(n),
        Content::Code => codes::is_code(sums::number(p)),
    }
}

// Whether a part holds what is asked of it; of one that is not there nothing is.
fn asked_at(a: Asked, ends: usize, s: &[u8]) -> bool
    ensures { result ≡ asked_at a ends s.now }
{
    let k = usize::from(a.skipped);
    parts::end_of(k, ends) == 0 || is_held(a.content, stretches::stretch(k, k, ends, s))
}

// Whether the parts of a text, which end so, hold what its model asks; with too few parts it asks nothing.
pub fn contents_at(model: Model, ends: usize, s: &[u8]) -> bool
    ensures { result ≡ contents_at model ends s.now }
{
    let from = usize::from(model.from);
    from == 0
        || parts::end_of(from - 1, ends) == 0
        || model.asked.iter().all(|a| asked_at(*a, ends, s))
}
