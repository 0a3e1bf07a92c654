// The starred cases of document 01, "Both sides of the line", as a single table under a single claim.
//
// There is no code here: the table and its claim are proofs/Starred.antt, about the definitions that the contracts cite.
#![tactic(auto)]
