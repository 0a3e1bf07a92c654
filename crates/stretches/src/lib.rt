// The parts of a reference as stretches of its text, hyphens and all.
//
// Document 01, "Reference models". Whoever asks has read the parts and knows where they end (crate `parts`).
#![tactic(auto)]

ghost use Rattle.std.specs.Prelude.{◌≡◌};
ghost use Rattle.stretches.specs.Mirror.{part_start, stretch};

// The byte at which a part begins.
fn start_of(k: usize, ends: usize) -> usize
    ensures { result ≡ part_start k ends }
{
    if k == 0 {
        0
    } else {
        parts::end_of(k - 1, ends) + 1
    }
}

// The text from the first byte of a part to the last of another; where that is missing, to the end of the text. None where they do
// not stand in it.
#[tactic(auto, unfolding(crate::specs::Mirror::stretch))]
pub fn stretch(first: usize, last: usize, ends: usize, s: &[u8]) -> &[u8]
    ensures { result.now ≡ stretch first last ends s.now }
{
    let e = match parts::end_of(last, ends) {
        0 => s.len(),
        e => e,
    };
    s.get(start_of(first, ends)..e).unwrap_or(&[])
}
