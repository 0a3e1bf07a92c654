// Runs the cases of a person's choosing on check digits, accounts, references, listings and slips, the examples printed
// beside the rules among them: one question a line on standard input, each written back with its answer. An independent
// second implementation answers the same questions (`second cases`), and the gate compares.
//
// A question is a verb and its fields, divided by bars; second/README.md lists the verbs. Those of the wage file are
// answered by the program `wage_cases`.
#![tactic(auto)]

use boundary::{Told, Valued};
use desk_ledger::Ledger;
use desk_standing::StandingTold;
use question::{
    behind, count, field, find, number_at, number_of, put_fields, put_lines, put_sizes, size_of,
    tell, tell_value,
};
use text::front;
use words::say;

fn main(rt: HostRuntime) {
    let mut input = [0u8; 200000];
    let got = words::read_full(&mut rt.stdin(), &mut input);
    answer_all(&rt, front(&input, got.size));
}

// Answers each line.
fn answer_all(rt: &impl Print, s: &[u8]) {
    for line in s.split_inclusive(|b| *b == b'\n') {
        answer(rt, front(line, find(line, b'\n')));
    }
}

// What a question asks.
#[derive(Clone, Copy)]
enum Verb {
    Iban,
    Oib,
    Ref,
    CheckIni,
    CheckIso,
    MakeIni,
    MakeIso,
    ListIban,
    ListRef,
    Slip,
    Write,
    Ledger,
    Lipa,
    Standing,
    WriteStanding,
}

// The verbs' words, and the verbs in the same order.
const WORDS: &[u8] =
    b"iban|oib|ref|check ini|check iso|make ini|make iso|list iban|list ref|slip|write|ledger|lipa|standing|write standing";

const VERBS: [Verb; 15] = [
    Verb::Iban,
    Verb::Oib,
    Verb::Ref,
    Verb::CheckIni,
    Verb::CheckIso,
    Verb::MakeIni,
    Verb::MakeIso,
    Verb::ListIban,
    Verb::ListRef,
    Verb::Slip,
    Verb::Write,
    Verb::Ledger,
    Verb::Lipa,
    Verb::Standing,
    Verb::WriteStanding,
];

// The verb of a text.
fn verb_of(text: &[u8]) -> Option<Verb> {
    VERBS.get(number_of(text, WORDS)).copied()
}

// Writes a question back with its answer.
fn answer(rt: &impl Print, question: &[u8]) {
    say(rt, question);
    say(rt, b" -> ");
    match verb_of(field(question, 0)) {
        Some(verb) => respond(rt, verb, question),
        None => unknown(rt),
    }
    say(rt, b"\n");
}

fn unknown(rt: &impl Print) {
    say(rt, b"unknown");
}

// Answers a question by its verb. The rules' numbers are those of the C interface.
fn respond(rt: &impl Print, verb: Verb, question: &[u8]) {
    let a = field(question, 1);
    match verb {
        Verb::Iban => tell(rt, desk_checks::lanecockle_iban(a)),
        Verb::Oib => tell(rt, desk_checks::lanecockle_oib(a)),
        Verb::Ref => tell(rt, desk_checks::lanecockle_reference(a, field(question, 2))),
        Verb::CheckIni => tell(rt, desk_checks::lanecockle_check_digits(0, a)),
        Verb::CheckIso => tell(rt, desk_checks::lanecockle_check_digits(1, a)),
        Verb::MakeIni => tell_digit(rt, desk_checks::lanecockle_make_digit(0, a)),
        Verb::MakeIso => tell_digit(rt, desk_checks::lanecockle_make_digit(1, a)),
        Verb::ListIban | Verb::ListRef => list(rt, verb, question),
        Verb::Slip => read(rt, behind(question, 1)),
        Verb::Ledger => enter(rt, behind(question, 1)),
        Verb::Lipa => convert(rt, question),
        Verb::Standing => stand(rt, question),
        Verb::Write | Verb::WriteStanding => write(rt, verb, question),
    }
}

// Writes the digit made.
fn tell_digit(rt: &impl Print, v: Valued) {
    tell_value(rt, v, b" digit ");
}

// ---------------------------------------------------------------------------
// Listings

// list iban, list ref: into a room of 10,000 numbers at most.
fn list(rt: &impl Print, verb: Verb, question: &[u8]) {
    let mut out = [0u16; 10000];
    let room = number_at(question, 1);
    if 10000 < room {
        unknown(rt);
        return;
    }
    list_in(
        rt,
        verb,
        field(question, 2),
        field(question, 3),
        &mut out[0..room],
    );
}

fn list_in(rt: &impl Print, verb: Verb, a: &[u8], b: &[u8], out: &mut [u16]) {
    if matches!(verb, Verb::ListIban) {
        tell_list(rt, desk_wet::lanecockle_list_iban(a, out), out);
        return;
    }
    tell_list(rt, desk_wet::lanecockle_list_reference(a, b, out), out);
}

// Writes a listing's answer, and the numbers listed.
fn tell_list(rt: &impl Print, v: Valued, out: &[u16]) {
    tell_value(rt, v, b" fillings ");
    for number in out.iter().take(v.value) {
        count(rt, b" ", usize::from(*number));
    }
}

// ---------------------------------------------------------------------------
// Slips

// slip: its bars are line feeds.
fn read(rt: &impl Print, s: &[u8]) {
    let mut text = [0u8; 1024];
    tell(rt, read_in(s, &mut text));
}

fn read_in(s: &[u8], text: &mut [u8]) -> Told {
    put_lines(text, s, b'|');
    desk_slips::lanecockle_slip_read(front(text, s.len()))
}

// ledger: its bars are line feeds.
fn enter(rt: &impl Print, s: &[u8]) {
    let mut text = [0u8; 1024];
    tell_ledger(rt, enter_in(s, &mut text));
}

fn enter_in(s: &[u8], text: &mut [u8]) -> Ledger {
    put_lines(text, s, b'|');
    desk_ledger::lanecockle_ledger_read(front(text, s.len()))
}

// Writes a slip's currency and its amount.
fn tell_ledger(rt: &impl Print, l: Ledger) {
    tell(rt, l.told);
    if l.currency == 1 {
        count(rt, b" euro ", l.cents as usize);
    }
    if l.currency == 2 {
        count(rt, b" kuna ", l.lipa as usize);
        count(rt, b" cents ", l.converted as usize);
    }
}

// lipa: so many in cents.
fn convert(rt: &impl Print, question: &[u8]) {
    let lipa = number_at(question, 1) as u64;
    count(
        rt,
        b"cents ",
        desk_ledger::lanecockle_lipa_in_cents(lipa) as usize,
    );
}

// write, write standing: into a room of 1,100 bytes at most.
fn write(rt: &impl Print, verb: Verb, question: &[u8]) {
    let mut text = [0u8; 1024];
    let mut sizes = [0usize; 16];
    let mut out = [0u8; 1100];
    write_in(rt, verb, question, &mut text, &mut sizes, &mut out);
}

fn write_in(
    rt: &impl Print,
    verb: Verb,
    question: &[u8],
    text: &mut [u8],
    sizes: &mut [usize],
    out: &mut [u8],
) {
    let room = number_at(question, 1);
    if out.len() < room {
        unknown(rt);
        return;
    }
    let fields = behind(question, 5);
    put_fields(text, fields);
    put_sizes(sizes, fields);
    let lent = front(text, size_of(fields));
    if matches!(verb, Verb::Write) {
        write_slip(rt, question, lent, sizes, &mut out[0..room]);
        return;
    }
    write_standing(rt, question, lent, sizes, &mut out[0..room]);
}

fn write_slip(rt: &impl Print, question: &[u8], text: &[u8], sizes: &[usize], out: &mut [u8]) {
    let cents = number_at(question, 2) as u64;
    let v = desk_slips::lanecockle_slip_write(cents, text, sizes, out);
    tell_value(rt, v, b" bytes ");
    say(rt, b"|");
    say(rt, front(out, v.value));
}

// ---------------------------------------------------------------------------
// Standing text: in a sheet `~` stands for a line feed

// standing: a field's text from two sheets.
fn stand(rt: &impl Print, question: &[u8]) {
    let mut farm = [0u8; 1024];
    let mut association = [0u8; 1024];
    tell_standing(rt, stand_in(question, &mut farm, &mut association));
}

fn stand_in(question: &[u8], farm: &mut [u8], association: &mut [u8]) -> StandingTold {
    let f = field(question, 2);
    let a = field(question, 3);
    put_lines(farm, f, b'~');
    put_lines(association, a, b'~');
    let n = number_at(question, 1);
    desk_standing::lanecockle_standing_text(n, front(farm, f.len()), front(association, a.len()))
}

// Writes whose text it is and where it stands.
fn tell_standing(rt: &impl Print, s: StandingTold) {
    tell(rt, s.told);
    count(rt, b" sheet ", s.sheet);
    count(rt, b" start ", s.start);
    count(rt, b" length ", s.length);
}

// write standing: as write, with two sheets.
fn write_standing(rt: &impl Print, question: &[u8], text: &[u8], sizes: &[usize], out: &mut [u8]) {
    let mut farm = [0u8; 1024];
    let mut association = [0u8; 1024];
    write_sheets(rt, question, text, sizes, &mut farm, &mut association, out);
}

fn write_sheets(
    rt: &impl Print,
    question: &[u8],
    text: &[u8],
    sizes: &[usize],
    farm: &mut [u8],
    association: &mut [u8],
    out: &mut [u8],
) {
    put_lines(farm, field(question, 3), b'~');
    put_lines(association, field(question, 4), b'~');
    write_lent(rt, question, text, sizes, farm, association, out);
}

fn write_lent<'a>(
    rt: &impl Print,
    question: &[u8],
    text: &'a [u8],
    sizes: &[usize],
    farm: &'a [u8],
    association: &'a [u8],
    out: &mut [u8],
) {
    let cents = number_at(question, 2) as u64;
    let f = front(farm, size_at(question, 3));
    let a = front(association, size_at(question, 4));
    let v = desk_standing::lanecockle_slip_write_standing(cents, text, sizes, f, a, out);
    tell(rt, v.told);
    count(rt, b" bytes ", v.value);
    count(rt, b" sheet ", v.sheet);
    say(rt, b"|");
    say(rt, front(out, v.value));
}

// How many bytes a field of a question has.
fn size_at(question: &[u8], k: usize) -> usize {
    let f = field(question, k);
    f.len()
}
