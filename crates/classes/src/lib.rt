// The classes of bytes that document 01 names, and which bytes each permits.
//
// specs/Classes.antt says the classes once; `text` looks through a text by them.
#![tactic(auto)]

ghost use Rattle.std.specs.Prelude.{◌≡◌};
ghost use Rattle.classes.specs.Classes.{permits, is_digit, is_letter};

// The classes of bytes that document 01 names.
#[derive(Clone, Copy)]
pub enum Class {
    // Digits: an OIB, and the digits that a check digit is made for.
    Digits,
    // A to Z and digits: an IBAN's field.
    Account,
    // Digits and hyphens: a reference.
    Reference,
    // Digits and `?`: an IBAN that got wet, after its HR.
    WetAccount,
    // Digits, hyphens and `?`: a reference that got wet.
    WetReference,
    // Everything but `?`: what stops at it is the first mark.
    Dry,
    // Everything but a hyphen: what stops at it is the end of a part.
    Part,
    // Everything but a line feed: what stops at it is the end of a line.
    Line,
    // A to Z: a purpose.
    Letters,
    // A blank alone: a place of a wage line that holds nothing.
    Blanks,
    // `0` alone: a number of a wage line that is absent.
    Zeros,
    // A to Z, digits and blanks: an IBAN's place in a wage line.
    Place,
    // The description of a wage order, in WIN-1250.
    Description,
    // A to Z, digits and hyphens: the account form of a kuna slip.
    AccountForm,
}

// Whether a byte is a digit.
pub fn is_digit(b: u8) -> bool
    ensures { result ≡ is_digit b }
{
    b.is_ascii_digit()
}

// Whether a byte is a letter, A to Z.
pub fn is_letter(b: u8) -> bool
    ensures { result ≡ is_letter b }
{
    b.is_ascii_uppercase()
}

// Whether a description permits a byte: `, - . /` and digits, A to Z, a to z, a blank, and ten letters of WIN-1250. It
// has no branch, so that `all_described` takes many bytes at a time.
pub fn described(b: u8) -> bool
    ensures { result ≡ permits Class.Description b }
{
    ((b',' <= b) & (b <= b'9'))
        | ((b'A' <= b) & (b <= b'Z'))
        | ((b'a' <= b) & (b <= b'z'))
        | (b == b' ')
        | (b == 0x8A)
        | (b == 0x9A)
        | (b == 0x8E)
        | (b == 0x9E)
        | (b == 0xC6)
        | (b == 0xE6)
        | (b == 0xC8)
        | (b == 0xE8)
        | (b == 0xD0)
        | (b == 0xF0)
}

// Whether a class permits a byte.
pub fn permitted(class: Class, b: u8) -> bool
    ensures { result ≡ permits class b }
{
    match class {
        Class::Digits => is_digit(b),
        Class::Account => is_digit(b) || is_letter(b),
        Class::Reference => is_digit(b) || b == b'-',
        Class::WetAccount => is_digit(b) || b == b'?',
        Class::WetReference => is_digit(b) || b == b'-' || b == b'?',
        Class::Dry => b != b'?',
        Class::Part => b != b'-',
        Class::Line => b != b'\n',
        Class::Letters => is_letter(b),
        Class::Blanks => b == b' ',
        Class::Zeros => b == b'0',
        Class::Place => is_digit(b) || is_letter(b) || b == b' ',
        Class::Description => described(b),
        Class::AccountForm => is_digit(b) || is_letter(b) || b == b'-',
    }
}
