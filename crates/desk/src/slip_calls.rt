// Slips: the calls of `desk_slips`, exported.

ghost use Rattle.std.specs.Prelude.{◌≡◌};
ghost use Rattle.slip.specs.Slip.{slip_answer};
ghost use Rattle.slip_handed.specs.Handed.{field_part, slip_cents};
ghost use Rattle.boundary.specs.Told.{told_of, value_told};
ghost use Rattle.desk_slips.specs.Slips.{WritesSlipGiven};

use boundary::{Told, Valued};
use text::Part;

// Reads a slip.
#[unsafe(no_mangle)]
pub extern "C" fn lanecockle_slip_read(slip: &[u8]) -> Told
    ensures { result ≡ told_of (slip_answer slip.now) }
{
    desk_slips::lanecockle_slip_read(slip)
}

// Where a field of an accepted slip stands, 4 to 14; else no part.
#[unsafe(no_mangle)]
pub extern "C" fn lanecockle_slip_field(slip: &[u8], number: usize) -> Part
    ensures { result ≡ field_part slip.now number }
{
    desk_slips::lanecockle_slip_field(slip, number)
}

// The amount of an accepted slip in cents.
#[unsafe(no_mangle)]
pub extern "C" fn lanecockle_slip_cents(slip: &[u8]) -> Valued
    ensures { result ≡ value_told (slip_cents slip.now) }
{
    desk_slips::lanecockle_slip_cents(slip)
}

// Writes a slip of an amount in cents and the fields 4 to 14, which stand one behind the other in `text`; the value is how
// many bytes were written. It is a slip with standing text from two empty sheets. Sizes that are not the text's are refused
// with 1, so that no field is shortened without a word.
#[unsafe(no_mangle)]
pub extern "C" fn lanecockle_slip_write(
    cents: u64,
    text: &[u8],
    sizes: &[usize],
    out: &mut [u8],
) -> Valued
    ensures { WritesSlipGiven cents sizes.now text.now out.old result out.new }
{
    desk_slips::lanecockle_slip_write(cents, text, sizes, out)
}
