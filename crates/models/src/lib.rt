// The models of references: each model's rules as one value.
//
// Document 01, "Reference models", with source 003, and document 02, W4. A model's choices stand in one decision, `rules` and
// `special`; whoever judges a reference goes by the value that it gives.
#![tactic(auto)]

ghost use Rattle.std.specs.Prelude.{◌≡◌, ◌≤◌, ◌<◌, ◌+◌};
ghost use Rattle.models.specs.Models.{asks, holding, model, plain, over, model_of, special_of};

use check_digits::Rule;

// A check group: how many parts stand before it, how many it joins, and the rule that its last digit obeys.
#[derive(Clone, Copy)]
pub struct Group {
    pub skipped: u8,
    pub joins: u8,
    pub rule: Rule,
}

// What a part may be asked to hold: a given number, or a code of kinds of personal income (crate `codes`).
#[derive(Clone, Copy)]
pub enum Content {
    Number(u32),
    Code,
}

// What is asked of one part: how many parts stand before it, and what it holds.
#[derive(Clone, Copy)]
pub struct Asked {
    pub skipped: u8,
    pub content: Content,
}

// A model's rules: how many parts, the least and most digits of each of four, from how many parts on it asks what two of them
// hold (from none is never), and its check groups.
#[derive(Clone, Copy)]
pub struct Model {
    pub handled: bool,
    pub fewest: u8,
    pub most: u8,
    pub lengths: [u8; 8],
    pub from: u8,
    pub asked: [Asked; 2],
    pub groups: [Group; 4],
}

// The least and most digits of each part, unless a model says otherwise.
const USUAL: [u8; 8] = [1, 12, 1, 12, 1, 12, 1, 12];

// The group of the parts from `first` to `last`, counted from 1; `last` below `first` is no group.
fn joined(rule: Rule, first: u8, last: u8) -> Group
    requires { (0 < first) × ((first ≤ last + 1) × (last < 5)) }
    ensures { result ≡ over rule first last }
{
    Group {
        skipped: first - 1,
        joins: last + 1 - first,
        rule,
    }
}

// What a part, counted from 1, is asked to hold.
fn asking(content: Content, part: u8) -> Asked
    requires { 0 < part }
    ensures { result ≡ asks content part }
{
    Asked {
        skipped: part - 1,
        content,
    }
}

// A model of its parts, lengths and three groups, whose parts may hold anything.
fn ruled(fewest: u8, most: u8, lengths: [u8; 8], g: Group, h: Group, k: Group) -> Model
    ensures { result ≡ model fewest most lengths g h k }
{
    let none = joined(Rule::Ini, 1, 0);
    let nothing = asking(Content::Number(0), 1);
    Model {
        handled: true,
        fewest,
        most,
        lengths,
        from: 0,
        asked: [nothing, nothing],
        groups: [g, h, k, none],
    }
}

// A model of which two parts hold what is asked, from so many parts on.
fn holding(from: u8, a: Asked, b: Asked, model: Model) -> Model
    ensures { result ≡ holding from a b model }
{
    Model {
        from,
        asked: [a, b],
        ..model
    }
}

// A model of one to three parts of one to twelve digits.
fn common(g: Group, h: Group, k: Group) -> Model
    ensures { result ≡ plain g h k }
{
    ruled(1, 3, USUAL, g, h, k)
}

// The rules of a model's number. Those above 11 are asked first: the neighbours that are left the compiler takes from a table, where
// for all numbers together it jumps, and the processor guesses wrong.
#[tactic(auto, unfolding(crate::specs::Models::model_of))]
pub fn rules(n: usize) -> Model
    ensures { result ≡ model_of n }
{
    if 11 < n {
        return special(n);
    }
    let none = joined(Rule::Ini, 1, 0);
    match n {
        0 => common(none, none, none),
        1 => common(joined(Rule::Ini, 1, 3), none, none),
        2 => common(joined(Rule::Ini, 2, 2), joined(Rule::Ini, 3, 3), none),
        3 => common(
            joined(Rule::Ini, 1, 1),
            joined(Rule::Ini, 2, 2),
            joined(Rule::Ini, 3, 3),
        ),
        4 => common(joined(Rule::Ini, 1, 1), joined(Rule::Ini, 3, 3), none),
        6 => common(joined(Rule::Ini, 2, 3), none, none),
        7 => common(joined(Rule::Ini, 2, 2), none, none),
        8 => common(joined(Rule::Ini, 1, 2), joined(Rule::Ini, 3, 3), none),
        9 => common(joined(Rule::Ini, 1, 2), none, none),
        10 => common(joined(Rule::Ini, 1, 1), joined(Rule::Ini, 2, 3), none),
        11 => common(joined(Rule::Ini, 1, 1), joined(Rule::Ini, 2, 2), none),
        _ => special(n),
    }
}

// The rules of the models with lengths, contents or a check of their own; another number is not handled.
#[tactic(auto, unfolding(crate::specs::Models::special_of))]
fn special(n: usize) -> Model
    ensures { result ≡ special_of n }
{
    let none = joined(Rule::Ini, 1, 0);
    let one = joined(Rule::Ini, 1, 1);
    let two = joined(Rule::Mod1110, 2, 2);
    match n {
        16 => ruled(
            3,
            3,
            [5, 5, 4, 4, 8, 8, 1, 12],
            one,
            joined(Rule::Ini, 2, 2),
            none,
        ),
        17 => common(joined(Rule::Mod1110, 1, 1), none, none),
        35 => ruled(2, 2, [1, 10, 11, 11, 1, 12, 1, 12], one, two, none),
        69 => holding(
            3,
            asking(Content::Number(40002), 1),
            asking(Content::Code, 3),
            ruled(2, 3, [5, 5, 11, 11, 3, 3, 1, 12], one, two, none),
        ),
        99 => ruled(0, 0, USUAL, none, none, none),
        _ => Model {
            handled: false,
            ..ruled(0, 0, USUAL, none, none, none)
        },
    }
}
