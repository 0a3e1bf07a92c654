// Runs the cases of a person's choosing on the wage file, written and judged: one question a line on standard input, each
// written back with its answer. An independent second implementation answers the same questions (`second cases`), and the
// gate compares.
//
// A question is a verb and its fields, divided by bars; second/README.md lists the verbs. From question to question stay a
// memory, at whose front stands what was written last, the lines kept for a group, the judge's record and a tally. Other
// verbs are answered by the program `cases`.
#![tactic(auto)]

use boundary::Told;
use desk_judge::Ended;
use desk_record::Record;
use desk_tally::Tallied;
use question::{
    behind, count, field, find, number_at, number_of, put_fields, put_sizes, size_of, tell,
};
use sums::Sum;
use tally::Tally;
use text::front;
use words::say;

fn main(rt: HostRuntime) {
    let mut input = [0u8; 200000];
    let got = words::read_full(&mut rt.stdin(), &mut input);
    let mut memory = [0u8; 1100];
    let mut kept = [0u8; 8016];
    answer_all(&rt, front(&input, got.size), &mut memory, &mut kept);
}

// Answers each line.
fn answer_all(rt: &impl Print, s: &[u8], memory: &mut [u8], kept: &mut [u8]) {
    let mut t = begun();
    for line in s.split_inclusive(|b| *b == b'\n') {
        answer(rt, front(line, find(line, b'\n')), &mut t, memory, kept);
    }
}

// What a question asks.
#[derive(Clone, Copy)]
enum Verb {
    Label,
    Group,
    Order,
    Closing,
    Keep,
    Poke,
    Place,
    Show,
    Begin,
    Step,
    End,
    Tally,
    StepTally,
    Total,
}

// The verbs' words, and the verbs in the same order.
const WORDS: &[u8] = b"300|301|309|399|keep|poke|place|show|begin|step|end|tally|step tally|total";

const VERBS: [Verb; 14] = [
    Verb::Label,
    Verb::Group,
    Verb::Order,
    Verb::Closing,
    Verb::Keep,
    Verb::Poke,
    Verb::Place,
    Verb::Show,
    Verb::Begin,
    Verb::Step,
    Verb::End,
    Verb::Tally,
    Verb::StepTally,
    Verb::Total,
];

// The verb of a text.
fn verb_of(text: &[u8]) -> Option<Verb> {
    VERBS.get(number_of(text, WORDS)).copied()
}

// Writes a question back with its answer.
fn answer(rt: &impl Print, question: &[u8], t: &mut Tallied, memory: &mut [u8], kept: &mut [u8]) {
    say(rt, question);
    say(rt, b" -> ");
    match verb_of(field(question, 0)) {
        Some(verb) => respond(rt, verb, question, t, memory, kept),
        None => unknown(rt),
    }
    say(rt, b"\n");
}

fn unknown(rt: &impl Print) {
    say(rt, b"unknown");
}

// Answers a question by its verb.
fn respond(
    rt: &impl Print,
    verb: Verb,
    question: &[u8],
    t: &mut Tallied,
    memory: &mut [u8],
    kept: &mut [u8],
) {
    let n = number_at(question, 1);
    match verb {
        Verb::Label | Verb::Group | Verb::Order | Verb::Closing => {
            write(rt, verb, question, memory, kept);
        }
        Verb::Keep => room::put(kept, n, front(memory, 1002)),
        Verb::Poke => room::put(memory, n, &[(number_at(question, 2) % 256) as u8]),
        Verb::Place => show(
            rt,
            wage_line::place(front(memory, n), number_at(question, 2)),
        ),
        Verb::Show => show(rt, front(memory, n)),
        Verb::Begin => t.record = told(rt, desk_judge::lanecockle_judge_begin(n as u64)),
        Verb::Step => {
            t.record = told(
                rt,
                desk_judge::lanecockle_judge_step(t.record, front(memory, n)),
            );
        }
        Verb::End => tell_end(rt, desk_judge::lanecockle_judge_end(t.record)),
        Verb::Tally => t.tally = tally_at(question),
        Verb::StepTally => *t = counted(rt, desk_tally::lent(t.record, front(memory, n), t.tally)),
        Verb::Total => t.record.file_total = sum_at(question, 1, 2),
    }
}

fn show(rt: &impl Print, s: &[u8]) {
    say(rt, s);
}

// ---------------------------------------------------------------------------
// Lines written

// 300, 301, 309, 399: into a room at the front of the memory.
fn write(rt: &impl Print, verb: Verb, question: &[u8], memory: &mut [u8], kept: &[u8]) {
    let room = number_at(question, 1);
    if memory.len() < room {
        unknown(rt);
        return;
    }
    let orders = front(kept, number_at(question, 4));
    tell(
        rt,
        write_fields(verb, question, orders, &mut memory[0..room]),
    );
}

// From the fields behind the first five.
fn write_fields(verb: Verb, question: &[u8], orders: &[u8], out: &mut [u8]) -> Told {
    let mut text = [0u8; 1024];
    let mut sizes = [0usize; 16];
    write_in(verb, question, &mut text, &mut sizes, orders, out)
}

fn write_in(
    verb: Verb,
    question: &[u8],
    text: &mut [u8],
    sizes: &mut [usize],
    orders: &[u8],
    out: &mut [u8],
) -> Told {
    let fields = behind(question, 5);
    put_fields(text, fields);
    put_sizes(sizes, fields);
    let day = number_at(question, 2) as u64;
    let kind = number_at(question, 3) as u64;
    let lent = front(text, size_of(fields));
    write_line(verb, day, kind, lent, sizes, orders, out)
}

fn write_line(
    verb: Verb,
    day: u64,
    kind: u64,
    text: &[u8],
    sizes: &[usize],
    orders: &[u8],
    out: &mut [u8],
) -> Told {
    match verb {
        Verb::Label => desk_writers::lanecockle_write_label(day, text, sizes, out),
        Verb::Group => desk_writers::lanecockle_write_group(day, kind, text, sizes, orders, out),
        Verb::Order => desk_writers::lanecockle_write_order(day, kind, text, sizes, out),
        _ => desk_writers::lanecockle_write_closing(day, out),
    }
}

// ---------------------------------------------------------------------------
// The judge and the tally

// A judge begun with no date, and a tally of nothing.
fn begun() -> Tallied {
    Tallied {
        record: desk_judge::lanecockle_judge_begin(0),
        tally: tally::zero(),
    }
}

// Writes a record's answer.
fn told(rt: &impl Print, r: Record) -> Record {
    tell(rt, r.told);
    r
}

// The tally in four fields.
fn tally_at(question: &[u8]) -> Tally {
    Tally {
        groups: number_at(question, 1),
        orders: number_at(question, 2),
        total: sum_at(question, 3, 4),
    }
}

// The sum in two fields.
fn sum_at(question: &[u8], high: usize, low: usize) -> Sum {
    Sum {
        high: number_at(question, high) as u64,
        low: number_at(question, low) as u64,
    }
}

// Writes judge and tally after a line with the tally lent.
fn counted(rt: &impl Print, b: Tallied) -> Tallied {
    tell(rt, b.record.told);
    tell_counts(rt, b.tally.groups, b.tally.orders, b.tally.total);
    tell_sum(rt, b" file ", b.record.file_total);
    b
}

fn tell_end(rt: &impl Print, e: Ended) {
    tell(rt, e.told);
    count(rt, b" lines ", e.lines);
    tell_counts(rt, e.groups, e.orders, e.total);
}

fn tell_counts(rt: &impl Print, groups: usize, orders: usize, total: Sum) {
    count(rt, b" groups ", groups);
    count(rt, b" orders ", orders);
    tell_sum(rt, b" total ", total);
}

fn tell_sum(rt: &impl Print, word: &[u8], s: Sum) {
    count(rt, word, s.high as usize);
    count(rt, b" ", s.low as usize);
}
