// A wet text filled by a number (document 01, "Wet slips"): a digit of the number at each mark, from left to right.
#![tactic(auto)]

ghost use Rattle.std.specs.Prelude.{◌≡◌, length};
ghost use Rattle.filling.specs.Filling.{filled_answer, filled_by};

use refusal::{Answer, Refusal};

// Writes the filling of a text by a number at the front of `out`; the bytes beyond it stay as they were.
pub fn filled(s: &[u8], number: u16, out: &mut [u8]) -> Answer
    ensures { (result ≡ filled_answer s.now (length out.old)) × (out.new ≡ filled_by result s.now number out.old) }
{
    let n = s.len();
    if n > out.len() {
        return Err(Refusal::Room(refusal::nowhere(), n));
    }
    let mut k = number;
    for i in (0..n).rev() {
        if s[i] == b'?' {
            out[i] = b'0' + (k % 10) as u8;
            k /= 10;
        } else {
            out[i] = s[i];
        }
    }
    Ok(())
}
