// The static library for C, Rust and Python: each call of the desk crates, exported under its own name.
//
// An export has the parameters, the result and the clauses of the call that it makes, word for word: `tools/one` holds it to
// that, and the check proves that it keeps them. include/lanecockle.h declares each for C.
#![tactic(auto)]

mod check_calls;
mod judge_calls;
mod ledger_calls;
mod slip_calls;
mod standing_calls;
mod tally_calls;
mod version_call;
mod wet_calls;
mod writer_calls;
