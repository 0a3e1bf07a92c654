// The places of a wage line: where each stands, by its order or its field's number, and its bytes.
//
// Document 01, "The wage file", with source 004's layout tables. What a place must hold is the crate `wage_contents`.
#![tactic(auto)]

ghost use Rattle.std.specs.Prelude.{◌≡◌, get_or, length};
ghost use Rattle.wage_places.specs.Places.{no_spot, label_spots, group_spots, order_spots, spots, spot_in, spot_of, part_at};

// The types of line: 300, 301, 309, 399.
#[derive(Clone, Copy)]
pub enum LineType {
    Label,
    Group,
    Order,
    Closing,
}

// A place of a line: its field's number, its first byte, and how many bytes it has.
#[derive(Clone, Copy)]
pub struct Spot {
    pub field: usize,
    pub start: usize,
    pub size: usize,
}

// No place.
const NOWHERE: Spot = Spot {
    field: 0,
    start: 0,
    size: 0,
};

// The places of a 300, by their order.
#[rattlefmt::skip]
const LABEL: [Spot; 8] = [
    Spot { field: 1, start: 0, size: 8 },
    Spot { field: 2, start: 8, size: 1 },
    Spot { field: 3, start: 9, size: 3 },
    Spot { field: 4, start: 12, size: 1 },
    Spot { field: 5, start: 13, size: 11 },
    Spot { field: 6, start: 24, size: 11 },
    Spot { field: 7, start: 35, size: 11 },
    Spot { field: 8, start: 46, size: 11 },
];

// The places of a 301, by their order.
#[rattlefmt::skip]
const GROUP: [Spot; 7] = [
    Spot { field: 1, start: 0, size: 21 },
    Spot { field: 2, start: 21, size: 3 },
    Spot { field: 3, start: 24, size: 21 },
    Spot { field: 4, start: 45, size: 3 },
    Spot { field: 5, start: 48, size: 5 },
    Spot { field: 6, start: 53, size: 20 },
    Spot { field: 7, start: 73, size: 8 },
];

// The places of a 309, by their order.
#[rattlefmt::skip]
const ORDER: [Spot; 16] = [
    Spot { field: 1, start: 0, size: 34 },
    Spot { field: 2, start: 34, size: 140 },
    Spot { field: 5, start: 174, size: 3 },
    Spot { field: 6, start: 177, size: 4 },
    Spot { field: 7, start: 181, size: 22 },
    Spot { field: 8, start: 203, size: 4 },
    Spot { field: 9, start: 207, size: 140 },
    Spot { field: 10, start: 347, size: 15 },
    Spot { field: 11, start: 362, size: 4 },
    Spot { field: 12, start: 366, size: 22 },
    Spot { field: 18, start: 542, size: 1 },
    Spot { field: 19, start: 543, size: 3 },
    Spot { field: 20, start: 546, size: 1 },
    Spot { field: 21, start: 547, size: 1 },
    Spot { field: 22, start: 548, size: 3 },
    Spot { field: 23, start: 551, size: 11 },
];

// The places of a line, in order.
#[tactic(auto, unfolding(crate::specs::Places::spots))]
fn places(t: LineType) -> &'static [Spot]
    ensures { result.now ≡ spots t }
{
    match t {
        LineType::Label => &LABEL,
        LineType::Group => &GROUP,
        LineType::Order => &ORDER,
        LineType::Closing => &[],
    }
}

// The place of a line at an order, counted from 0; past the last, no place.
pub fn spot_at(t: LineType, k: usize) -> Spot
    ensures { result ≡ get_or (spots t) k no_spot }
{
    places(t).get(k).copied().unwrap_or(NOWHERE)
}

// How many places a line has.
pub fn count(t: LineType) -> usize
    ensures { result ≡ length (spots t) }
{
    places(t).len()
}

// The first of some places that is of a field.
#[tactic(auto, using(crate::proofs::Laws::find_on, crate::proofs::Laws::find_stops, crate::proofs::Laws::find_ends))]
fn find_in(places: &[Spot], field: usize) -> Spot
    ensures { result ≡ spot_in field places.now }
{
    for p in places {
        if p.field == field {
            return *p;
        }
    }
    NOWHERE
}

// The place of a field; an unknown number has none.
#[tactic(auto, unfolding(crate::specs::Places::spots, crate::specs::Places::spot_in))]
pub fn find(t: LineType, field: usize) -> Spot
    ensures { result ≡ spot_of t field }
{
    // each table by its name: the compiler then knows its places, and asks no more of them than it has to
    match t {
        LineType::Label => find_in(&LABEL, field),
        LineType::Group => find_in(&GROUP, field),
        LineType::Order => find_in(&ORDER, field),
        LineType::Closing => NOWHERE,
    }
}

// The bytes of a place: as much of it as there is.
pub fn part(p: Spot, s: &[u8]) -> &[u8]
    ensures { result.now ≡ part_at p s.now }
{
    let rest = &s[p.start.min(s.len())..];
    &rest[..p.size.min(rest.len())]
}

// The bytes of a place, by its order.
pub fn part_at(t: LineType, k: usize, s: &[u8]) -> &[u8]
    ensures { result.now ≡ part_at (get_or (spots t) k no_spot) s.now }
{
    part(spot_at(t, k), s)
}
