// Slips of either currency, and lipa in cents, for the ledgers: the calls of `desk_ledger`, exported.

ghost use Rattle.std.specs.Prelude.{◌≡◌};
ghost use Rattle.ledger_slip.specs.Ledger.{ledger_of, ledger_part};
ghost use Rattle.units.specs.Units.{lipa_in_cents};
ghost use Rattle.desk_ledger.specs.Ledgers.{ledger_told};

use desk_ledger::Ledger;
use text::Part;

// Reads a slip of either currency.
#[unsafe(no_mangle)]
pub extern "C" fn lanecockle_ledger_read(slip: &[u8]) -> Ledger
    ensures { result ≡ ledger_told (ledger_of slip.now) }
{
    desk_ledger::lanecockle_ledger_read(slip)
}

// Where a field of an accepted slip of either currency stands, 4 to 14; else no part.
#[unsafe(no_mangle)]
pub extern "C" fn lanecockle_ledger_field(slip: &[u8], number: usize) -> Part
    ensures { result ≡ ledger_part slip.now number }
{
    desk_ledger::lanecockle_ledger_field(slip, number)
}

// So many lipa in cents, the nearest.
#[unsafe(no_mangle)]
pub extern "C" fn lanecockle_lipa_in_cents(lipa: u64) -> u64
    ensures { result ≡ lipa_in_cents lipa }
{
    desk_ledger::lanecockle_lipa_in_cents(lipa)
}
