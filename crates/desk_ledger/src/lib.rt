// The desk's calls for the ledgers, for callers in other languages: slips of either currency, and lipa in cents.
//
// Each call is thin: it calls the proved one and tells its answer by the crate boundary. include/lanecockle.h declares it
// for C. No call has a `requires`: whatever numbers and bytes arrive get an answer.
#![tactic(auto)]

ghost use Rattle.std.specs.Prelude.{◌≡◌};
ghost use Rattle.ledger_slip.specs.Ledger.{ledger_of, ledger_part};
ghost use Rattle.units.specs.Units.{lipa_in_cents};
ghost use Rattle.desk_ledger.specs.Ledgers.{ledger_told};

use boundary::Told;
use ledger_slip::Amount;
use refusal::Refusal;
use text::Part;
use units::Lipa;

// An answer with the currency of a slip, 1 euro or 2 kuna, and its amount: the cents of a euro slip, or the lipa of a kuna
// slip and these in cents. Where it is a refusal all are 0.
#[repr(C)]
#[derive(Clone, Copy)]
pub struct Ledger {
    pub told: Told,
    pub currency: usize,
    pub cents: u64,
    pub lipa: u64,
    pub converted: u64,
}

// So many lipa in cents.
#[tactic(auto, using(units::proofs::Theorems::nearest_is))]
fn converted(lipa: u64) -> u64
    ensures { result ≡ lipa_in_cents lipa }
{
    let cents = units::in_cents(Lipa { number: lipa });
    cents.number
}

// A slip of either currency.
#[tactic(auto, unfolding(crate::specs::Ledgers::ledger_told))]
fn tell(slip: Result<Amount, Refusal>) -> Ledger
    ensures { result ≡ ledger_told slip }
{
    match slip {
        Ok(Amount::Euro(c)) => {
            let cents = c.number;
            Ledger {
                told: boundary::accept(),
                currency: 1,
                cents,
                lipa: 0,
                converted: 0,
            }
        }
        Ok(Amount::Kuna(l)) => {
            let lipa = l.number;
            Ledger {
                told: boundary::accept(),
                currency: 2,
                cents: 0,
                lipa,
                converted: converted(lipa),
            }
        }
        Err(r) => Ledger {
            told: boundary::refuse(r),
            currency: 0,
            cents: 0,
            lipa: 0,
            converted: 0,
        },
    }
}

// Reads a slip of either currency.
pub fn lanecockle_ledger_read(slip: &[u8]) -> Ledger
    ensures { result ≡ ledger_told (ledger_of slip.now) }
{
    tell(ledger_slip::read(slip))
}

// Where a field of an accepted slip of either currency stands, 4 to 14; else no part.
pub fn lanecockle_ledger_field(slip: &[u8], number: usize) -> Part
    ensures { result ≡ ledger_part slip.now number }
{
    ledger_slip::part(slip, number)
}

// So many lipa in cents, the nearest.
pub fn lanecockle_lipa_in_cents(lipa: u64) -> u64
    ensures { result ≡ lipa_in_cents lipa }
{
    converted(lipa)
}
