// The number and the sum of a group's lent orders, which a 301 tells.
//
// Document 01, "The wage file", the writer: "a 301 from its fields and its group's lent 309 lines, whose number and sum it
// works out".
#![tactic(auto)]

ghost use Rattle.std.specs.Prelude.{◌≡◌, ◌/◌, ◌<◌, length};
ghost use Rattle.sums.specs.Sums.{sum_of};
ghost use Rattle.wage_line.specs.Pieces.{pieces};
ghost use Rattle.worked_out.specs.Amounts.{amounts};

use sums::Sum;
use wage_places::LineType;

// How many lines whole orders are.
pub fn number(s: &[u8]) -> usize
    ensures { result ≡ length s.now / 1002 }
{
    s.len() / 1002
}

// The exact sum of the orders' amounts.
pub fn total(s: &[u8]) -> Sum
    ensures { result ≡ sum_of 100 (amounts (pieces s.now)) }
{
    let amount = wage_places::find(LineType::Order, 10);
    let mut sum = sums::nothing();
    for line in s.chunks(1002) {
        sum = sums::add(sum, sums::number(wage_places::part(amount, line)), 100);
    }
    sum
}
