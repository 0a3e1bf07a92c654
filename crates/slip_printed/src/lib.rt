// What the programs `slipfile` and `ledger` print of a slip, put into lent room: `accepted` and its fields 3 to 14, a line each,
// or its refusal with its place. `ledger` says which currency it was, and a kuna slip's amount in cents too.
#![tactic(auto)]

ghost use Rattle.std.specs.Prelude.{◌++◌, ◌≤◌, length};
ghost use Rattle.printed.specs.Printed.{Puts};
ghost use Rattle.slip_printed.specs.SlipPrinted.{cents_line, field_line, field_lines, slip_printed, ledger_printed};

use ledger_slip::Amount;
use refusal::Answer;
use units::Lipa;

// A field's number and its text.
fn put_field(out: &mut [u8], at: usize, n: usize, text: &[u8]) -> usize
    ensures { Puts (field_line n text.now) at out.old result out.new }
{
    let mut next = printed::put_number(out, at, n as u64);
    next = printed::put(out, next, b"=");
    next = printed::put(out, next, text);
    printed::put(out, next, b"\n")
}

// The fields 3 to 14 of a slip.
fn put_fields(s: &[u8], out: &mut [u8], at: usize) -> usize
    requires { at ≤ length out.old }
    ensures { Puts (field_lines s.now 3 12) at out.old result out.new }
{
    let mut next = at;
    for n in 3..15 {
        next = put_field(out, next, n, slip_handed::piece_text(s, n - 1));
    }
    next
}

// A line of words, and the fields of a slip.
fn put_accepted(words: &[u8], s: &[u8], out: &mut [u8]) -> usize
    ensures { Puts (words.now ++ field_lines s.now 3 12) 0 out.old result out.new }
{
    let next = printed::put(out, 0, words);
    put_fields(s, out, next)
}

// What `slipfile` prints of a slip; the answer is how many bytes it has, as far as there is room.
#[tactic(auto, unfolding(crate::specs::SlipPrinted::slip_printed))]
pub fn print(s: &[u8], out: &mut [u8]) -> usize
    ensures { Puts (slip_printed s.now) 0 out.old result out.new }
{
    match slip::read(s) {
        Ok(()) => put_accepted(b"accepted\n", s, out),
        Err(refused) => printed::put_refused(out, 0, refused),
    }
}

// A kuna slip's amount in cents.
fn put_cents(out: &mut [u8], at: usize, lipa: Lipa) -> usize
    ensures { Puts (cents_line lipa.number) at out.old result out.new }
{
    let cents = units::in_cents(lipa);
    let n = cents.number;
    let mut next = printed::put(out, at, b"cents=");
    next = printed::put_number(out, next, n);
    printed::put(out, next, b"\n")
}

// What `ledger` prints of a slip; the answer is how many bytes it has, as far as there is room.
pub fn print_ledger(s: &[u8], out: &mut [u8]) -> usize
    ensures { Puts (ledger_printed s.now) 0 out.old result out.new }
{
    match ledger_slip::read(s) {
        Ok(Amount::Euro(_)) => put_accepted(b"accepted euro\n", s, out),
        Ok(Amount::Kuna(lipa)) => {
            let next = put_accepted(b"accepted kuna\n", s, out);
            put_cents(out, next, lipa)
        }
        Err(r) => printed::put_refused(out, 0, r),
    }
}
