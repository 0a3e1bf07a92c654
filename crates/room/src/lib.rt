// Lent room: bytes and digits written at a place of a lent slice, as far as there is room.
//
// Nothing outside the place changes; what does not fit is not written. Whoever must not write in part asks for the room
// first.
#![tactic(auto)]

ghost use Rattle.std.specs.Prelude.{◌≡◌};
ghost use Rattle.std.proofs.lemmas.List.Edits.{sets};
ghost use Rattle.text.specs.Digits.{digits_text};

// A text.
pub fn put(out: &mut [u8], at: usize, s: &[u8])
    ensures { out.new ≡ sets out.old at s.now }
{
    let mut next = at;
    // byte by byte: the library for C would need `memmove` for a part that is copied whole
    for b in s {
        if out.len() <= next {
            return;
        }
        out[next] = *b;
        next += 1;
    }
}

// The last digits of a number, with zeros in front.
pub fn put_digits(out: &mut [u8], at: usize, digits: usize, n: u64)
    ensures { out.new ≡ sets out.old at (digits_text digits n) }
{
    let left = out.len().saturating_sub(at);
    let mut rest = n;
    for i in (0..digits).rev() {
        if i < left {
            out[at + i] = b'0' + (rest % 10) as u8;
        }
        rest /= 10;
    }
}
