// A slip of either currency, for the ledgers: which it was, its amount in its own unit, and its fields.
//
// Document 02, W1: "Read both kinds and say which it was." Field 2 says which; all else is `slip::read_in`'s.
#![tactic(auto)]

ghost use Rattle.std.specs.Prelude.{◌≡◌};
ghost use Rattle.ledger_slip.specs.Ledger.{currency_of, amount_in, ledger_of, ledger_part, ledger_field};

use refusal::Refusal;
use slip_fields::Currency;
use text::Part;
use units::{Cents, Lipa};

// The amount of an accepted slip, in the unit of its currency.
#[derive(Clone, Copy)]
pub enum Amount {
    Euro(Cents),
    Kuna(Lipa),
}

// The currency in which a slip is judged: kuna where field 2 says so.
#[tactic(auto, unfolding(crate::specs::Ledger::currency_of))]
pub fn currency(s: &[u8]) -> Currency
    ensures { result ≡ currency_of s.now }
{
    match slip_handed::piece_text(s, 1) {
        b"HRK" => Currency::Kuna,
        _ => Currency::Euro,
    }
}

// An accepted slip's amount, in the unit of its currency.
#[tactic(auto, unfolding(crate::specs::Ledger::amount_in))]
fn in_unit(currency: Currency, number: u64) -> Amount
    ensures { result ≡ amount_in currency number }
{
    match currency {
        Currency::Euro => Amount::Euro(Cents { number }),
        Currency::Kuna => Amount::Kuna(Lipa { number }),
    }
}

// A slip of either currency: as `slip::read_in` in the currency that its field 2 names.
#[tactic(auto, unfolding(crate::specs::Ledger::ledger_of), using(slip_handed::proofs::Amounts::amount_read))]
pub fn read(s: &[u8]) -> Result<Amount, Refusal>
    ensures { result ≡ ledger_of s.now }
{
    let currency = currency(s);
    slip::read_in(currency, s)?;
    Ok(in_unit(currency, sums::number(slip_handed::piece_text(s, 2))))
}

// Where a field of an accepted slip stands, 4 to 14; else no part.
pub fn part(s: &[u8], n: usize) -> Part
    ensures { result ≡ ledger_part s.now n }
{
    slip_handed::part_in(currency(s), s, n)
}

// A field of an accepted slip, 4 to 14, as the part of the lent bytes where it stands; else an empty part.
pub fn field(s: &[u8], n: usize) -> &[u8]
    ensures { result.now ≡ ledger_field s.now n }
{
    slip_handed::field_in(currency(s), s, n)
}
