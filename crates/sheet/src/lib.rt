// One sheet of standing text: lines `number=text`, each ended by a line feed.
//
// Document 02, W2. A sheet is read once, line by line: it is right, and then it is known where the text of each field
// stands, or its first malformed line is told. Each text is judged by the slip's own rule, `slip_fields::judge_field`.
#![tactic(auto)]

ghost use Rattle.std.specs.Prelude.{◌≡◌};
ghost use Rattle.sheet.specs.Sheet.{is_standing, text_start, one_digit, two_digit, line_number};
ghost use Rattle.sheet.specs.Mirror.{right_number, malformed_at, lines_of, held_in};

use classes::Class;
use slip_fields::Currency;
use text::Part;

// What reading a sheet finds: its first malformed line, or 0; and by the number of a field where its text begins, 0 where
// the sheet has no such line, and how many bytes it has.
#[derive(Clone, Copy)]
pub struct Lines {
    pub bad: usize,
    pub starts: [usize; 15],
    pub lengths: [usize; 15],
}

// ---------------------------------------------------------------------------
// One line

// Whether a field has standing text: 4 to 9, 13 and 14.
#[tactic(auto, unfolding(crate::specs::Sheet::is_standing))]
pub fn is_standing(n: usize) -> bool
    ensures { result ≡ is_standing n }
{
    matches!(n, 4..=9 | 13 | 14)
}

// Where the text begins in a line of a number: behind its digits and the `=`.
fn text_start(n: usize) -> usize
    ensures { result ≡ text_start n }
{
    if n < 10 {
        return 2;
    }
    3
}

// The field that one digit names, 4 to 9; else 0.
fn one_digit(b: u8) -> usize
    ensures { result ≡ one_digit b }
{
    match b {
        b'4'..=b'9' => (b - b'0') as usize,
        _ => 0,
    }
}

// The field that two digits name, 13 or 14; else 0.
fn two_digit(a: u8, b: u8) -> usize
    ensures { result ≡ two_digit a b }
{
    match (a, b) {
        (b'1', b'3') => 13,
        (b'1', b'4') => 14,
        _ => 0,
    }
}

// The number of a line, which stands before its `=`; 0 where no field's does.
#[tactic(auto, unfolding(crate::specs::Sheet::line_number))]
fn line_number(p: &[u8]) -> usize
    ensures { result ≡ line_number p.now }
{
    match p {
        [a, b'=', ..] => one_digit(*a),
        [a, b, b'=', ..] => two_digit(*a, *b),
        _ => 0,
    }
}

// The number of a right line behind one of the number `last`; 0 where it is malformed.
fn right_number(last: usize, p: &[u8]) -> usize
    ensures { result ≡ right_number last p.now }
{
    let n = line_number(p);
    if n <= last {
        return 0;
    }
    let start = text_start(n);
    match slip_fields::judge_field(Currency::Euro, n, b"", &p[start..]) {
        Ok(()) => n,
        Err(_) => 0,
    }
}

// ---------------------------------------------------------------------------
// The sheet

// A sheet whose first malformed line is told: no text of it is.
fn malformed(line: usize) -> Lines
    ensures { result ≡ malformed_at line }
{
    Lines {
        bad: line,
        starts: [0usize; 15],
        lengths: [0usize; 15],
    }
}

// Reads a sheet, from line feed to line feed.
pub fn read(s: &[u8]) -> Lines
    ensures { result ≡ lines_of s.now }
{
    let mut starts = [0usize; 15];
    let mut lengths = [0usize; 15];
    let mut line: usize = 1;
    let mut last: usize = 0;
    let mut at: usize = 0;
    while let Some(i) = text::first_bad(Class::Line, &s[at..]) {
        let stop = at + i;
        let n = right_number(last, &s[at..stop]);
        if n == 0 {
            return malformed(line);
        }
        let before = text_start(n);
        starts[n] = at + before;
        lengths[n] = i - before;
        last = n;
        line += 1;
        at = stop + 1;
    }
    if at < s.len() {
        return malformed(line);
    }
    Lines {
        bad: 0,
        starts,
        lengths,
    }
}

// Where the text of a field stands, by what reading its sheet found.
#[tactic(auto, unfolding(crate::specs::Mirror::held_in))]
pub fn find(lines: Lines, n: usize) -> Option<Part>
    ensures { result ≡ held_in lines n }
{
    if 14 < n {
        return None;
    }
    let start = lines.starts[n];
    if start == 0 {
        return None;
    }
    let length = lines.lengths[n];
    Some(Part { start, length })
}
