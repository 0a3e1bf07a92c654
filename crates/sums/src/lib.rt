// Exact sums of cents under any limit, and the numbers that the digits of a text write.
//
// Document 01: "sums exact to twenty digits"; a sum kept in 64 bits is one of its "errors a clerk would ship". A sum is
// two numbers, base 10^18, and its limit is `most` times 10^18: 100 for twenty digits. The limit stands for itself and
// all above, so that a sum of more is told from every one that fits.
#![tactic(auto)]

ghost use Rattle.std.specs.Prelude.{◌≡◌, ◌∷◌, [], ◌+◌, ◌*◌, ◌<◌, eqb};
ghost use Rattle.text.specs.Digits.{digits_of, value_from};
ghost use Rattle.sums.specs.Sums.{limb, cents_of, no_cents, sum_of, fits, added, same_sum, number_of, number_in};

// `high` times 10^18 and `low`, in cents.
#[repr(C)]
#[derive(Clone, Copy)]
pub struct Sum {
    pub high: u64,
    pub low: u64,
}

// No cents.
pub fn nothing() -> Sum
    ensures { result ≡ no_cents }
{
    Sum { high: 0, low: 0 }
}

// Whether a sum is below `most` times 10^18.
pub fn fits(s: Sum, most: u64) -> bool
    ensures { result ≡ fits most s }
{
    let high = s.high;
    let low = s.low;
    if most <= high {
        return false;
    }
    low / 1000000000000000000 < most - high
}

// The sum of two high parts and a low one under a limit.
fn kept(high: u64, more: u64, low: u64, most: u64) -> Sum
    requires { low < limb }
    ensures { result ≡ sum_of most ((high + more) * limb + low) }
{
    if most <= high {
        return Sum { high: most, low: 0 };
    }
    if most - high <= more {
        return Sum { high: most, low: 0 };
    }
    Sum {
        high: high + more,
        low,
    }
}

// Some cents more.
pub fn add(s: Sum, cents: u64, most: u64) -> Sum
    ensures { result ≡ added most s cents }
{
    let high = s.high;
    let low = s.low;
    let lows = low % 1000000000000000000 + cents % 1000000000000000000;
    let carried = low / 1000000000000000000
        + cents / 1000000000000000000
        + lows / 1000000000000000000;
    kept(high, carried, lows % 1000000000000000000, most)
}

// Whether a number is `by` times 10^18 above another.
fn is_above(by: u64, low: u64, other: u64) -> bool
    ensures { result ≡ eqb (by * limb + low) other }
{
    if other < low {
        return false;
    }
    let rest = other - low;
    if rest % 1000000000000000000 != 0 {
        return false;
    }
    rest / 1000000000000000000 == by
}

// Whether two sums are the same number of cents.
pub fn is_same(s: Sum, t: Sum) -> bool
    ensures { result ≡ same_sum s t }
{
    let a = s.high;
    let b = s.low;
    let c = t.high;
    let d = t.low;
    if c <= a {
        return is_above(a - c, b, d);
    }
    is_above(c - a, d, b)
}

// A sum with one digit more after it; what is no digit is passed over.
fn with_digit(s: Sum, b: u8, most: u64) -> Sum
    ensures { result ≡ sum_of most (value_from (cents_of s) (digits_of (b ∷ []))) }
{
    let high = s.high;
    let low = s.low;
    if !b.is_ascii_digit() {
        return add(s, 0, most);
    }
    if most / 10 < high {
        return Sum { high: most, low: 0 };
    }
    let units = low % 1000000000000000000 * 10 + (b - b'0') as u64;
    let carried = low / 1000000000000000000 * 10 + units / 1000000000000000000;
    kept(high * 10, carried, units % 1000000000000000000, most)
}

// The sum that the digits of a text write.
pub fn written(s: &[u8], most: u64) -> Sum
    ensures { result ≡ sum_of most (number_of s.now) }
{
    let mut sum = nothing();
    for b in s {
        sum = with_digit(sum, *b, most);
    }
    sum
}

// A number with one digit more after it; what is no digit is passed over.
#[tactic(auto, unfolding(text::specs::Digits::digits_of, text::specs::Digits::value_from))]
fn longer(v: u64, b: u8) -> u64
    requires { v < limb }
    ensures { result ≡ value_from v (digits_of (b ∷ [])) }
{
    if !b.is_ascii_digit() {
        return v;
    }
    v * 10 + (b - b'0') as u64
}

// The number that the digits among the first eighteen bytes of a text write.
pub fn number(s: &[u8]) -> u64
    ensures { result ≡ number_in s.now }
{
    let mut v = 0;
    for b in s.iter().take(18) {
        v = longer(v, *b);
    }
    v
}
