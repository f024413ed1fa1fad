// The cases that the requirement marks with a star, proved of the meanings.
//
// 01, "Cases on both sides". There is no code here, only the statement and its proof: specs/Cases.antt has one list of all of them, an
// input and what is seen of it each, and proofs/Kept.antt computes the meanings of the readers and the writer. The cases that are run
// are in crates/cases.
#![tactic(auto)]
