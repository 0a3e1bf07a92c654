// Dates: YYYYMMDD as one number, in the Gregorian calendar of the years 2023 to 9999.
//
// Document 01, "The wage file". Two dates stand in the order of their numbers.
#![tactic(auto)]

ghost use Rattle.std.specs.Prelude.{◌≡◌};
ghost use Rattle.dates.specs.Dates.{is_leap, days_of, is_date};

// Whether a year is a leap year.
fn is_leap(year: u64) -> bool
    ensures { result ≡ is_leap year }
{
    year % 4 == 0 && (year % 100 != 0 || year % 400 == 0)
}

// How many days a month has.
#[tactic(auto, unfolding(crate::specs::Dates::days_of))]
fn days(year: u64, month: u64) -> u64
    ensures { result ≡ days_of year month }
{
    match month {
        2 => if is_leap(year) { 29 } else { 28 },
        4 | 6 | 9 | 11 => 30,
        _ => 31,
    }
}

// Whether a number is a date.
#[tactic(auto, unfolding(crate::specs::Dates::is_date))]
pub fn is_date(n: u64) -> bool
    ensures { result ≡ is_date n }
{
    let year = n / 10000;
    let month = n / 100 % 100;
    let day = n % 100;
    (2023..=9999).contains(&year)
        && (1..=12).contains(&month)
        && (1..=days(year, month)).contains(&day)
}
