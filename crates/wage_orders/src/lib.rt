// The lent orders of a group, judged for whoever writes its first line.
//
// Document 01, "The wage file", the writer of a 301: "1 if the lent lines are not whole, 10 if there are none, 12 above
// 99,999, then the first refusal in them". The scan over the lines is left at the first refusal.
#![tactic(auto)]

ghost use Rattle.std.specs.Prelude.{◌≡◌, ◌/◌};
ghost use Rattle.wage_line.specs.Pieces.{pieces};
ghost use Rattle.wage_orders.specs.Orders.{orders_from, group_orders};

use refusal::{Answer, Refusal};

// The lines of whole orders, up to the first refusal.
fn judge_lines(day: u64, kind: u64, s: &[u8]) -> Answer
    ensures { result ≡ orders_from day kind 1 (pieces s.now) }
{
    let mut n: usize = 1;
    for line in s.chunks(1002) {
        lent_order::judge_order(day, kind, n, line)?;
        n += 1;
    }
    Ok(())
}

// A group's lent orders: 1, 10, 12, then the first refusal in them.
pub fn judge(day: u64, kind: u64, s: &[u8]) -> Answer
    ensures { result ≡ group_orders day kind s.now }
{
    if s.len() % 1002 != 0 {
        return Err(Refusal::Size(refusal::nowhere()));
    }
    if s.len() == 0 {
        return Err(Refusal::Misplaced(refusal::nowhere()));
    }
    if 99999 < s.len() / 1002 {
        return Err(Refusal::Orders(refusal::nowhere()));
    }
    judge_lines(day, kind, s)
}
