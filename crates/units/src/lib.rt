// Cents and lipa, two units that no function adds, and lipa in cents at the fixed 7.53450 kuna for a euro.
//
// Document 02, W1: "Lipa and cents are two units and are never added."
#![tactic(auto)]

ghost use Rattle.units.specs.Units.{Nearest};

// An amount in cents: hundredths of a euro.
#[derive(Clone, Copy)]
pub struct Cents {
    pub number: u64,
}

// An amount in lipa: hundredths of a kuna.
#[derive(Clone, Copy)]
pub struct Lipa {
    pub number: u64,
}

// The nearest cent. Of whole 75,345 lipa, 10,000 cents, nothing is left to round, and what remains is small: so no product
// passes 64 bits, whatever the amount.
pub fn in_cents(lipa: Lipa) -> Cents
    ensures { Nearest lipa.number result.number }
{
    let number = lipa.number;
    let whole = number / 75345;
    let rest = number % 75345;
    Cents {
        number: whole * 10000 + (rest * 20000 + 75345) / 150690,
    }
}
