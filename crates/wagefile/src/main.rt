// Judges a wage file: reads eight digits and a line feed, the day, then the file line by line,
// and writes one line: `accepted 5 lines 1 groups 2 orders`, or one refusal with its place.
//
// What is written is `file_printed` of what was read (wage_printed/specs/FilePrinted.antt); where a read fails it is nothing,
// and standard error has a line. A file of any size is read 64 lines at a time into one buffer; `printed_in_parts`
// (wage_printed/proofs/Theorems.antt) says that this prints the line of the whole file.
#![tactic(auto)]

use condition::{Counts, Judge};
use refusal::Refusal;
use std::io::Read;
use text::front;

fn main(rt: HostRuntime) {
    let mut stdin = rt.stdin();
    let mut head = [0u8; 9];
    let got = words::read_full(&mut stdin, &mut head);
    if got.failed {
        words::unread(&rt);
        return;
    }
    let day = wage_printed::day(front(&head, got.size));
    let mut buffer = [0u8; 64128];
    match read_lines(&mut stdin, condition::begin(day), &mut buffer) {
        Some(judge) => respond(&rt, condition::end(judge)),
        None => words::unread(&rt),
    }
}

// Reads until the input ends, a line is refused or a read fails: then what stands before is not answered. A proved loop
// has to end: so it has a last turn, which no run comes to.
fn read_lines<R: Read>(input: &mut R, from: Judge, buffer: &mut [u8]) -> Option<Judge> {
    let mut judge = from;
    for _ in 0..u64::MAX {
        let got = words::read_full(input, buffer);
        if got.failed {
            return None;
        }
        judge = wage_file::lines(judge, front(buffer, got.size));
        if condition::is_refused(judge.condition) || got.size < buffer.len() {
            return Some(judge);
        }
    }
    Some(judge)
}

// Writes what is printed of the answer: at most 108 bytes.
fn respond(rt: &(impl Print + Eprint), e: Result<Counts, Refusal>) {
    let mut out = [0u8; 108];
    let n = wage_printed::print(e, &mut out);
    words::publish(rt, front(&out, n));
}
