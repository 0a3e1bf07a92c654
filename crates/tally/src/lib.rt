// A tally: groups, orders and their exact total, and what a line of a wage file adds to it.
//
// Document 02, W5: "Keep a small tally of groups, orders and exact total". The judge's record keeps one of its file, and a
// caller may lend one to each step; what a line adds and where a tally ends is the same for both.
#![tactic(auto)]

ghost use Rattle.std.specs.Prelude.{◌≡◌, cond};
ghost use Rattle.tally.specs.Tally.{no_orders, is_within, grown};

use sums::Sum;

// Groups, orders, and what the orders come to, in cents.
#[repr(C)]
#[derive(Clone, Copy)]
pub struct Tally {
    pub groups: usize,
    pub orders: usize,
    pub total: Sum,
}

// What a line adds to a tally.
#[derive(Clone, Copy)]
pub enum Growth {
    Nothing,
    Group,
    // An order, of so many cents.
    Order(u64),
}

// Nothing counted yet.
pub fn zero() -> Tally
    ensures { result ≡ no_orders }
{
    Tally {
        groups: 0,
        orders: 0,
        total: sums::nothing(),
    }
}

// Whether a tally has at most 1,000,000 groups and orders, and less than 10^21 cents.
#[tactic(auto, unfolding(crate::specs::Tally::is_within))]
pub fn is_within(t: Tally) -> bool
    ensures { result ≡ is_within t }
{
    t.groups <= 1_000_000 && t.orders <= 1_000_000 && sums::fits(t.total, 1000)
}

// A tally with what a line adds. One beyond its limits, which nothing brings back within them, stays as it is.
#[tactic(auto, unfolding(crate::specs::Tally::is_within))]
pub fn grow(t: Tally, more: Growth) -> Tally
    ensures { result ≡ cond (is_within t) (grown t more) t }
{
    if !is_within(t) {
        return t;
    }
    match more {
        Growth::Nothing => t,
        Growth::Group => Tally {
            groups: t.groups + 1,
            ..t
        },
        Growth::Order(cents) => Tally {
            orders: t.orders + 1,
            total: sums::add(t.total, cents, 1000),
            ..t
        },
    }
}
