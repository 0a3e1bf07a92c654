// Standing text: the calls of `desk_standing`, exported.

ghost use Rattle.std.specs.Prelude.{◌≡◌};
ghost use Rattle.standing_text.specs.Standing.{standing_of};
ghost use Rattle.desk_standing.specs.Standings.{standing_told, WritesStandingTold};

use desk_standing::{StandingTold, StandingWritten};

// Where the standing text of a field stands.
#[unsafe(no_mangle)]
pub extern "C" fn lanecockle_standing_text(
    field: usize,
    farm: &[u8],
    association: &[u8],
) -> StandingTold
    ensures { result ≡ standing_told (standing_of field farm.now association.now) }
{
    desk_standing::lanecockle_standing_text(field, farm, association)
}

// Writes a slip as `lanecockle_slip_write` does, each of the fields 4 to 9, 13 and 14 that is given empty taken from the
// sheets.
#[unsafe(no_mangle)]
pub extern "C" fn lanecockle_slip_write_standing<'a>(
    cents: u64,
    text: &'a [u8],
    sizes: &[usize],
    farm: &'a [u8],
    association: &'a [u8],
    out: &mut [u8],
) -> StandingWritten
    ensures { WritesStandingTold cents sizes.now text.now farm.now association.now out.old result out.new }
{
    desk_standing::lanecockle_slip_write_standing(cents, text, sizes, farm, association, out)
}
