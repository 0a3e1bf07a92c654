// The codes of kinds of personal income.
//
// Source 004's list, "ŠIFARNIK VRSTA OSOBNIH PRIMANJA": 55 codes, ascending. A wage order's code and the third part of a wage
// reference (document 02, W4) are of it; requests W6 and W14 go by it too.
#![tactic(auto)]

ghost use Rattle.std.specs.Prelude.{◌≡◌};
ghost use Rattle.codes.specs.Codes.{first_in, code_place, is_code};

// The codes, in the order of the list.
const CODES: [u16; 55] = [
    100, 110, 120, 130, 140, 150, 160, 170, 180, 190, 191, 200, 210, 220, 230, 240, 250, 260, 270,
    280, 290, 300, 310, 320, 330, 340, 350, 360, 361, 370, 380, 390, 400, 410, 420, 430, 431, 432,
    433, 440, 441, 450, 451, 500, 510, 600, 610, 620, 621, 630, 640, 650, 660, 690, 699,
];

// A code of the list as a number.
fn wide(n: u16) -> u64
    ensures { result ≡ n }
{
    n as u64
}

// Where a number first stands in a list, counted from 0.
fn place_in(list: &[u16], code: u64) -> Option<usize>
    ensures { result ≡ first_in code list.now }
{
    for (i, c) in list.iter().enumerate() {
        if code == wide(*c) {
            return Some(i);
        }
    }
    None
}

// Where a code stands in the list of the codes.
pub fn place(code: u64) -> Option<usize>
    ensures { result ≡ code_place code }
{
    let list = CODES;
    place_in(&list, code)
}

// Whether a number is a code of the list.
pub fn is_code(n: u64) -> bool
    ensures { result ≡ is_code n }
{
    match place(n) {
        Some(_) => true,
        None => false,
    }
}
