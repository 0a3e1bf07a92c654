// The refusals of document 01, "Refusal numbers", and of document 02: one case for each number, each with its place.
//
// What the paper's number, place and needed count of a refusal are is said once, in specs/Refusal.antt,
// and every promise above speaks of refusals through it. A request of document 02 adds a case here.
#![tactic(auto)]

ghost use Rattle.std.specs.Prelude.{◌≡◌};
ghost use Rattle.refusal.specs.Refusal.{none, refusal_number, refusal_place, needed_of, refusal_of, moved, in_line};

// Where a refusal stands. Lines and fields count from 1, bytes from 0; 0 stands for "none".
#[derive(Clone, Copy)]
pub struct Place {
    pub line: usize,
    pub field: usize,
    pub byte: usize,
}

// The refusals, in the order of their numbers: 1 to 17 of document 01, then those of document 02.
#[derive(Clone, Copy)]
pub enum Refusal {
    Size(Place),
    Ends(Place),
    Byte(Place),
    Length(Place),
    Form(Place),
    Check(Place),
    Model(Place),
    Parts(Place),
    Digit(Place),
    Misplaced(Place),
    Date(Place),
    Orders(Place),
    Sum(Place),
    Unfinished(Place),
    // The needed number is told.
    Room(Place, usize),
    Marks(Place),
    Beyond(Place),
    // 20 and 28: standing text (W2).
    Sheet(Place),
    Field(Place),
    // 29: the running total (W5).
    Overfull(Place),
}

// What a judging call answers: acceptance, or a refusal.
pub type Answer = Result<(), Refusal>;

// The place of a refusal that tells none.
pub fn nowhere() -> Place
    ensures { result ≡ none }
{
    Place {
        line: 0,
        field: 0,
        byte: 0,
    }
}

// The paper's number of a refusal.
pub fn number(refusal: Refusal) -> u32
    ensures { result ≡ refusal_number refusal }
{
    match refusal {
        Refusal::Size(_) => 1,
        Refusal::Ends(_) => 2,
        Refusal::Byte(_) => 3,
        Refusal::Length(_) => 4,
        Refusal::Form(_) => 5,
        Refusal::Check(_) => 6,
        Refusal::Model(_) => 7,
        Refusal::Parts(_) => 8,
        Refusal::Digit(_) => 9,
        Refusal::Misplaced(_) => 10,
        Refusal::Date(_) => 11,
        Refusal::Orders(_) => 12,
        Refusal::Sum(_) => 13,
        Refusal::Unfinished(_) => 14,
        Refusal::Room(_, _) => 15,
        Refusal::Marks(_) => 16,
        Refusal::Beyond(_) => 17,
        Refusal::Sheet(_) => 20,
        Refusal::Field(_) => 28,
        Refusal::Overfull(_) => 29,
    }
}

// The place that a refusal tells.
pub fn told(refusal: Refusal) -> Place
    ensures { result ≡ refusal_place refusal }
{
    match refusal {
        Refusal::Size(p)
        | Refusal::Ends(p)
        | Refusal::Byte(p)
        | Refusal::Length(p)
        | Refusal::Form(p)
        | Refusal::Check(p)
        | Refusal::Model(p)
        | Refusal::Parts(p)
        | Refusal::Digit(p)
        | Refusal::Misplaced(p)
        | Refusal::Date(p)
        | Refusal::Orders(p)
        | Refusal::Sum(p)
        | Refusal::Unfinished(p)
        | Refusal::Room(p, _)
        | Refusal::Marks(p)
        | Refusal::Beyond(p)
        | Refusal::Sheet(p)
        | Refusal::Field(p)
        | Refusal::Overfull(p) => p,
    }
}

// The number that was needed: told by 15, and 0 of every other refusal.
pub fn needed(refusal: Refusal) -> usize
    ensures { result ≡ needed_of refusal }
{
    match refusal {
        Refusal::Room(_, n) => n,
        _ => 0,
    }
}

// The refusal of a number, a place and a needed number; a number of no other refusal is 17.
pub fn made(number: usize, p: Place, needed: usize) -> Refusal
    ensures { result ≡ refusal_of number p needed }
{
    match number {
        1 => Refusal::Size(p),
        2 => Refusal::Ends(p),
        3 => Refusal::Byte(p),
        4 => Refusal::Length(p),
        5 => Refusal::Form(p),
        6 => Refusal::Check(p),
        7 => Refusal::Model(p),
        8 => Refusal::Parts(p),
        9 => Refusal::Digit(p),
        10 => Refusal::Misplaced(p),
        11 => Refusal::Date(p),
        12 => Refusal::Orders(p),
        13 => Refusal::Sum(p),
        14 => Refusal::Unfinished(p),
        15 => Refusal::Room(p, needed),
        16 => Refusal::Marks(p),
        20 => Refusal::Sheet(p),
        28 => Refusal::Field(p),
        29 => Refusal::Overfull(p),
        _ => Refusal::Beyond(p),
    }
}

// The same refusal at another place: a rule that knows no line or field refuses, and its caller says where.
pub fn put(refusal: Refusal, place: Place) -> Refusal
    ensures { result ≡ moved place refusal }
{
    made(number(refusal) as usize, place, needed(refusal))
}

// A refusal of a line, its field and byte kept.
pub fn in_line(line: usize, refusal: Refusal) -> Refusal
    ensures { result ≡ in_line line refusal }
{
    let p = told(refusal);
    let field = p.field;
    let byte = p.byte;
    put(refusal, Place { line, field, byte })
}
