// Reads a slip of either currency from standard input, of whatever size, and writes `accepted euro` or `accepted kuna`, each
// field from 3 to 14 on a line of its own as `number=text`, and for a kuna slip `cents=` and its amount in cents; or one
// refusal with its place.
//
// What is written is `ledger_printed` of what was read (slip_printed/specs/SlipPrinted.antt); where a read fails it is nothing,
// and standard error has a line.
#![tactic(auto)]

use text::front;

fn main(rt: HostRuntime) {
    // One byte more than the longest slip: a longer input is refused for its size all the same.
    let mut input = [0u8; 484];
    let got = words::read_full(&mut rt.stdin(), &mut input);
    if got.failed {
        words::unread(&rt);
        return;
    }
    respond(&rt, front(&input, got.size));
}

// Writes what is printed of a slip: at most 6,200 bytes.
fn respond(rt: &(impl Print + Eprint), s: &[u8]) {
    let mut out = [0u8; 6200];
    let n = slip_printed::print_ledger(s, &mut out);
    words::publish(rt, front(&out, n));
}
