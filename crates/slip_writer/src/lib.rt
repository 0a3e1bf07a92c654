// Slips written: from an amount in cents and the fields 4 to 14.
//
// Document 01, "The slip's fourteen fields". What the writer writes, the reader accepts (proofs/Theorems.antt).
#![tactic(auto)]

ghost use Rattle.std.specs.Prelude.{◌≡◌, [], ◌∷◌, ◌+◌, ◌≤◌, length};
ghost use Rattle.slip_fields.specs.Fields.{hrvhub30};
ghost use Rattle.text.specs.Bytes.{eur};
ghost use Rattle.text.specs.Digits.{digits_text};
ghost use Rattle.text.specs.Lines.{join_lines};
ghost use Rattle.slip_writer.specs.Writer.{slip_text};
ghost use Rattle.slip_given.specs.Given.{three, texts};
ghost use Rattle.text.specs.Stands.{Stands};
ghost use Rattle.slip_writer.specs.Steps.{WritesSlip, WritesAccepted};

use refusal::{Answer, Place, Refusal};

// ---------------------------------------------------------------------------
// Bytes written at a place; each answers the place behind them

// A text.
fn put(out: &mut [u8], at: usize, s: &[u8]) -> usize
    requires { at + length s.now ≤ length out.old }
    ensures { Stands out.old at s.now result out.new }
{
    room::put(out, at, s);
    at + s.len()
}

// A text, and a line feed.
fn put_line(out: &mut [u8], at: usize, s: &[u8]) -> usize
    requires { at + length (join_lines (s.now ∷ [])) ≤ length out.old }
    ensures { Stands out.old at (join_lines (s.now ∷ [])) result out.new }
{
    let next = put(out, at, s);
    out[next] = 10;
    next + 1
}

// Some texts, a line each.
fn put_lines(out: &mut [u8], at: usize, lines: &[&[u8]]) -> usize
    requires { at + length (join_lines (texts lines.now)) ≤ length out.old }
    ensures { Stands out.old at (join_lines (texts lines.now)) result out.new }
{
    let mut next = at;
    for s in lines {
        next = put_line(out, next, s);
    }
    next
}

// The fields 1 to 3, at the front.
fn put_head(out: &mut [u8], cents: u64) -> usize
    requires { 0 + length (join_lines (three hrvhub30 eur (digits_text 15 cents))) ≤ length out.old }
    ensures { Stands out.old 0 (join_lines (three hrvhub30 eur (digits_text 15 cents))) result out.new }
{
    let mut amount = [0; 15];
    room::put_digits(&mut amount, 0, 15, cents);
    put_lines(out, 0, &[b"HRVHUB30", b"EUR", &amount])
}

// ---------------------------------------------------------------------------
// The slip

// The size of some lines, with the line feeds.
#[tactic(auto, using(crate::proofs::Laws::lines_sum))]
fn size_of(lines: &[&[u8]]) -> usize
    requires { length (join_lines (texts lines.now)) ≤ 483 }
    ensures { result ≡ length (join_lines (texts lines.now)) }
{
    lines.iter().map(|s| s.len() + 1).sum()
}

// Writes the slip of accepted fields, if there is room.
fn write_accepted(cents: u64, fields: &[&[u8]; 11], out: &mut [u8]) -> Result<usize, Refusal>
    requires { length (slip_text cents (texts fields.now)) ≤ 483 }
    ensures { WritesAccepted cents (texts fields.now) out.old result out.new }
{
    let size = 29 + size_of(fields);
    if out.len() < size {
        return Err(Refusal::Room(refusal::nowhere(), size));
    }
    let at = put_head(out, cents);
    put_lines(out, at, fields);
    Ok(size)
}

// Writes the slip of an amount in cents and the fields 4 to 14 at the front of `out`; the bytes beyond it stay. Refusals: those of
// the amount and of the fields, in their order, then 15.
pub fn write(cents: u64, fields: &[&[u8]; 11], out: &mut [u8]) -> Result<usize, Refusal>
    ensures { WritesSlip cents (texts fields.now) out.old result out.new }
{
    if 1000000000000000 <= cents {
        return Err(Refusal::Length(Place {
            line: 0,
            field: 3,
            byte: 0,
        }));
    }
    slip_given::judge_given(fields)?;
    write_accepted(cents, fields, out)
}
