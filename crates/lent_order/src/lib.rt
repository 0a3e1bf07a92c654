// One lent order of a group, judged for whoever writes the group's first line.
//
// Document 01, "The wage file", the writer of a 301: "the first refusal in them, 10 for another type, with its line in the
// group".
#![tactic(auto)]

ghost use Rattle.std.specs.Prelude.{◌≡◌};
ghost use Rattle.wage_fields.specs.Rules.{places_answer};
ghost use Rattle.lent_order.specs.Order.{answer_of_line, no_order, lent_order_answer};

use refusal::{Answer, Place, Refusal};
use wage_places::LineType;

// A line that is no order: 10.
fn no_order(n: usize) -> Answer
    ensures { result ≡ no_order n }
{
    let place = Place {
        line: n,
        field: 0,
        byte: 0,
    };
    Err(Refusal::Misplaced(place))
}

// An order's fields, a refusal told of its line.
fn judge_fields(day: u64, kind: u64, n: usize, s: &[u8]) -> Answer
    ensures { result ≡ answer_of_line n (places_answer day kind LineType.Order s.now) }
{
    wage_fields::judge_places(day, kind, LineType::Order, s).map_err(|r| refusal::in_line(n, r))
}

// One line of a group's orders.
#[tactic(auto, unfolding(crate::specs::Order::lent_order_answer))]
pub fn judge_order(day: u64, kind: u64, n: usize, s: &[u8]) -> Answer
    ensures { result ≡ lent_order_answer day kind n s.now }
{
    match wage_line::read_type(s) {
        Ok(LineType::Order) => judge_fields(day, kind, n, s),
        Ok(_) => no_order(n),
        Err(r) => Err(refusal::in_line(n, r)),
    }
}
