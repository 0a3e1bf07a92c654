// The promises of docs/PROMISES.md, each as a theorem about a call of the static library.
//
// There is no code here: specs/Calls.antt says what a theorem about a call is, and proofs/ has one file for each demand. A theorem
// takes whatever the call's contract allows, and so whatever the proved call answers and leaves.
#![tactic(auto)]
