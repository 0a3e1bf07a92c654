// Wage files written and read: what the writer and the judge promise together.
//
// Document 01, "The wage file". There is no code here: the definitions say what a file written line by line is, and the
// proofs that it is accepted and reads back as the same fields, and that a right line written again is the same.
#![tactic(auto)]
