// A slip written with standing text: a field 4 to 9, 13 or 14 that is given empty is taken from the sheets.
//
// Document 02, W2. It is `standing_text` and `slip_writer::write` put together: both sheets are judged, then the fields are
// filled, then the slip is written. With two empty sheets it is the slip's writer with its fields as a caller lends them.
#![tactic(auto)]

ghost use Rattle.std.specs.Prelude.{◌≡◌, ◌≤◌, ◌-◌};
ghost use Rattle.lent_fields.specs.Fields.{given_of};
ghost use Rattle.slip_writer.specs.Steps.{WritesSlip};
ghost use Rattle.standing_slip.specs.Filled.{WritesStanding};
ghost use Rattle.standing_slip.specs.Steps.{field_by, fields_by};

use refusal::{Answer, Refusal};
use sheet::Lines;
use standing_text::Sheet;

// What writing a slip answers, and for 20 the sheet whose line it tells.
#[derive(Clone, Copy)]
pub struct StandingSlip {
    pub sheet: Sheet,
    pub written: Result<usize, Refusal>,
}

// Field n of a slip: as it is given, or where that is empty what the sheets supply.
fn field<'a>(
    n: usize,
    text: &'a [u8],
    sizes: &[usize],
    farm: &'a [u8],
    association: &'a [u8],
    f: Lines,
    a: Lines,
) -> &'a [u8]
    requires { 4 ≤ n }
    ensures { result.now ≡ field_by n (given_of sizes.now text.now (n - 4)) f a farm.now association.now }
{
    let given = lent_fields::given(text, sizes, n - 4);
    if given.len() != 0 {
        return given;
    }
    if !sheet::is_standing(n) {
        return given;
    }
    standing_text::bytes_in(standing_text::supply(n, f, a), farm, association)
}

// Writes the slip of the eleven fields, filled by what reading both sheets found.
fn write_filled<'a>(
    cents: u64,
    text: &'a [u8],
    sizes: &[usize],
    farm: &'a [u8],
    association: &'a [u8],
    f: Lines,
    a: Lines,
    out: &mut [u8],
) -> Result<usize, Refusal>
    ensures { WritesSlip cents (fields_by sizes.now text.now f a farm.now association.now) out.old result out.new }
{
    let fields = [
        field(4, text, sizes, farm, association, f, a),
        field(5, text, sizes, farm, association, f, a),
        field(6, text, sizes, farm, association, f, a),
        field(7, text, sizes, farm, association, f, a),
        field(8, text, sizes, farm, association, f, a),
        field(9, text, sizes, farm, association, f, a),
        field(10, text, sizes, farm, association, f, a),
        field(11, text, sizes, farm, association, f, a),
        field(12, text, sizes, farm, association, f, a),
        field(13, text, sizes, farm, association, f, a),
        field(14, text, sizes, farm, association, f, a),
    ];
    slip_writer::write(cents, &fields, out)
}

// Writes a slip of an amount in cents and the fields 4 to 14, which stand one behind the other in `text`, at the front of
// `out`. Refusals: 1 where the sizes are not the text's; 20 of the sheets; then the writer's.
pub fn write<'a>(
    cents: u64,
    text: &'a [u8],
    sizes: &[usize],
    farm: &'a [u8],
    association: &'a [u8],
    out: &mut [u8],
) -> StandingSlip
    ensures { WritesStanding cents sizes.now text.now farm.now association.now out.old result out.new }
{
    if !lent_fields::is_lent_whole(text, sizes, 11) {
        return StandingSlip {
            sheet: Sheet::Neither,
            written: Err(Refusal::Size(refusal::nowhere())),
        };
    }
    let f = sheet::read(farm);
    let a = sheet::read(association);
    let judged = standing_text::judge_sheets(f.bad, a.bad);
    let sheet = judged.sheet;
    let answer = judged.answer;
    if let Err(r) = answer {
        return StandingSlip {
            sheet,
            written: Err(r),
        };
    }
    StandingSlip {
        sheet: Sheet::Neither,
        written: write_filled(cents, text, sizes, farm, association, f, a, out),
    }
}
