// A wage line without its fields: its type, its CR LF, and what the writer puts in places not read.
//
// Document 01, "The wage file", the writer: "It puts blanks in places not read (zeros in 540–542)".
#![tactic(auto)]

ghost use Rattle.std.specs.Prelude.{◌≡◌};
ghost use Rattle.bare_line.specs.Bare.{bank_zeros, dressed};
ghost use Rattle.wage_line.specs.Line.{type_text};
ghost use Rattle.std.proofs.lemmas.List.Edits.{sets};

use wage_places::LineType;

// Zeros at 540 to 542 of a 309.
fn put_zeros(t: LineType, line: &mut [u8])
    ensures { line.new ≡ sets line.old 539 (bank_zeros t) }
{
    match t {
        LineType::Label => {}
        LineType::Group => {}
        LineType::Order => {
            room::put(line, 539, b"000");
        }
        LineType::Closing => {}
    }
}

// The line's type.
fn put_type(t: LineType, line: &mut [u8])
    ensures { line.new ≡ sets line.old 997 (type_text t) }
{
    match t {
        LineType::Label => {
            room::put(line, 997, b"300");
        }
        LineType::Group => {
            room::put(line, 997, b"301");
        }
        LineType::Order => {
            room::put(line, 997, b"309");
        }
        LineType::Closing => {
            room::put(line, 997, b"399");
        }
    }
}

// A line's type, its CR LF, and what stands in places not read.
pub fn dress(t: LineType, line: &mut [u8])
    ensures { line.new ≡ dressed t line.old }
{
    put_zeros(t, line);
    put_type(t, line);
    room::put(line, 1000, b"\r\n");
}
