// Standing text for slips: the text of a field from the farm's sheet, or else from the association's.
//
// Document 02, W2. Both sheets are judged whole, the farm's first, whatever is asked for; the answer is the part of that
// sheet where the text stands.
#![tactic(auto)]

ghost use Rattle.std.specs.Prelude.{◌≡◌, Err, Ok};
ghost use Rattle.sheet.specs.Mirror.{held_in};
ghost use Rattle.standing_text.specs.Standing.{sheets_judged, supplied_by, standing_of, bytes_of, standing_bytes, standing_text};

use refusal::{Answer, Place, Refusal};
use sheet::Lines;
use text::Part;

// One of the two sheets, or neither.
#[derive(Clone, Copy)]
pub enum Sheet {
    Neither,
    Farm,
    Association,
}

// Both sheets judged: acceptance, or a refusal and the sheet whose line it tells.
#[derive(Clone, Copy)]
pub struct Judged {
    pub sheet: Sheet,
    pub answer: Answer,
}

// The standing text of a field: the sheet that supplied it and where it stands there; or a refusal, and for 20 the sheet
// whose line it tells.
#[derive(Clone, Copy)]
pub struct Standing {
    pub sheet: Sheet,
    pub answer: Answer,
    pub part: Part,
}

// ---------------------------------------------------------------------------
// Both sheets

// 20 at a line of a sheet.
fn malformed(sheet: Sheet, line: usize) -> Judged
    ensures { result ≡ record { sheet = sheet; answer = Err (Refusal.Sheet (record { line = line; field = 0; byte = 0 })) } }
{
    let place = Place {
        line,
        field: 0,
        byte: 0,
    };
    Judged {
        sheet,
        answer: Err(Refusal::Sheet(place)),
    }
}

// Both sheets by the first malformed line of each, 0 for none: the farm's sheet first.
#[tactic(auto, unfolding(crate::specs::Standing::sheets_judged))]
pub fn judge_sheets(farm: usize, association: usize) -> Judged
    ensures { result ≡ sheets_judged farm association }
{
    match (farm, association) {
        (0, 0) => Judged {
            sheet: Sheet::Neither,
            answer: Ok(()),
        },
        (0, line) => malformed(Sheet::Association, line),
        (line, _) => malformed(Sheet::Farm, line),
    }
}

// A text that a sheet supplied.
fn supplied(sheet: Sheet, part: Part) -> Standing
    ensures { result ≡ record { sheet = sheet; answer = (Ok tt); part = part } }
{
    Standing {
        sheet,
        answer: Ok(()),
        part,
    }
}

// The text of a field by what reading both sheets found: the farm's, else the association's, else none.
#[tactic(auto, unfolding(crate::specs::Standing::supplied_by))]
pub fn supply(n: usize, farm: Lines, association: Lines) -> Standing
    ensures { result ≡ supplied_by (held_in farm n) (held_in association n) }
{
    match sheet::find(farm, n) {
        Some(p) => supplied(Sheet::Farm, p),
        None => match sheet::find(association, n) {
            Some(p) => supplied(Sheet::Association, p),
            None => supplied(
                Sheet::Neither,
                Part {
                    start: 0,
                    length: 0,
                },
            ),
        },
    }
}

// ---------------------------------------------------------------------------
// The text of a field

// Where the standing text of a field stands; 28, then 20.
pub fn ask(n: usize, farm: &[u8], association: &[u8]) -> Standing
    ensures { result ≡ standing_of n farm.now association.now }
{
    let none = Part {
        start: 0,
        length: 0,
    };
    if !sheet::is_standing(n) {
        return Standing {
            sheet: Sheet::Neither,
            answer: Err(Refusal::Field(refusal::nowhere())),
            part: none,
        };
    }
    let f = sheet::read(farm);
    let a = sheet::read(association);
    let judged = judge_sheets(f.bad, a.bad);
    if let Err(r) = judged.answer {
        return Standing {
            sheet: judged.sheet,
            answer: Err(r),
            part: none,
        };
    }
    supply(n, f, a)
}

// Whether the question is accepted, or its refusal.
pub fn judge(n: usize, farm: &[u8], association: &[u8]) -> Answer
    ensures { result ≡ (standing_of n farm.now association.now).answer }
{
    ask(n, farm, association).answer
}

// The bytes of a part, as far as the text goes.
fn bytes(s: &[u8], p: Part) -> &[u8]
    ensures { result.now ≡ bytes_of p s.now }
{
    if s.len() < p.start {
        return &s[0..0];
    }
    text::front(&s[p.start..], p.length)
}

// The bytes of a standing text, as the part of the sheet that supplied it; none where neither did.
#[tactic(auto, unfolding(crate::specs::Standing::bytes_from))]
pub fn bytes_in<'a>(standing: Standing, farm: &'a [u8], association: &'a [u8]) -> &'a [u8]
    ensures { result.now ≡ standing_bytes standing farm.now association.now }
{
    match standing.sheet {
        Sheet::Neither => &farm[0..0],
        Sheet::Farm => bytes(farm, standing.part),
        Sheet::Association => bytes(association, standing.part),
    }
}

// The standing text of a field, as the part of the sheet where it stands; empty where no sheet has that line, and where the
// question is refused.
pub fn text<'a>(n: usize, farm: &'a [u8], association: &'a [u8]) -> &'a [u8]
    ensures { result.now ≡ standing_text n farm.now association.now }
{
    bytes_in(ask(n, farm, association), farm, association)
}
