// The desk's calls of standing text, for callers in other languages.
//
// Each call is thin: it calls the proved one and tells its answer by the crate boundary. include/lanecockle.h declares it
// for C. No call has a `requires`: whatever numbers and bytes arrive get an answer.
#![tactic(auto)]

ghost use Rattle.std.specs.Prelude.{◌≡◌};
ghost use Rattle.standing_text.specs.Standing.{standing_of};
ghost use Rattle.desk_standing.specs.Standings.{sheet_number, standing_told, written_told, WritesStandingTold};

use boundary::Told;
use standing_slip::StandingSlip;
use standing_text::{Sheet, Standing};

// An answer with the sheet that supplied the text, or whose line it tells, and where the text stands there. 1 is the farm's
// sheet, 2 the association's, 0 neither.
#[repr(C)]
#[derive(Clone, Copy)]
pub struct StandingTold {
    pub told: Told,
    pub sheet: usize,
    pub start: usize,
    pub length: usize,
}

// An answer with how many bytes were written and, for 20, the sheet whose line it tells.
#[repr(C)]
#[derive(Clone, Copy)]
pub struct StandingWritten {
    pub told: Told,
    pub value: usize,
    pub sheet: usize,
}

// The number that a sheet has in C.
#[tactic(auto, unfolding(crate::specs::Standings::sheet_number))]
fn sheet_number(sheet: Sheet) -> usize
    ensures { result ≡ sheet_number sheet }
{
    match sheet {
        Sheet::Neither => 0,
        Sheet::Farm => 1,
        Sheet::Association => 2,
    }
}

// A standing text.
#[tactic(auto, unfolding(crate::specs::Standings::standing_told))]
fn tell(s: Standing) -> StandingTold
    ensures { result ≡ standing_told s }
{
    StandingTold {
        told: boundary::tell(s.answer),
        sheet: sheet_number(s.sheet),
        start: s.part.start,
        length: s.part.length,
    }
}

// A slip written with standing text.
#[tactic(auto, unfolding(crate::specs::Standings::written_told))]
fn tell_slip(s: StandingSlip) -> StandingWritten
    ensures { result ≡ written_told s }
{
    let v = boundary::tell_valued(s.written);
    StandingWritten {
        told: v.told,
        value: v.value,
        sheet: sheet_number(s.sheet),
    }
}

// Where the standing text of a field stands.
pub fn lanecockle_standing_text(field: usize, farm: &[u8], association: &[u8]) -> StandingTold
    ensures { result ≡ standing_told (standing_of field farm.now association.now) }
{
    tell(standing_text::ask(field, farm, association))
}

// Writes a slip as `lanecockle_slip_write` does, each of the fields 4 to 9, 13 and 14 that is given empty taken from the
// sheets.
pub fn lanecockle_slip_write_standing<'a>(
    cents: u64,
    text: &'a [u8],
    sizes: &[usize],
    farm: &'a [u8],
    association: &'a [u8],
    out: &mut [u8],
) -> StandingWritten
    ensures { WritesStandingTold cents sizes.now text.now farm.now association.now out.old result out.new }
{
    tell_slip(standing_slip::write(cents, text, sizes, farm, association, out))
}
