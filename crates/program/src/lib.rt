// A program that calls the C functions on one block and nine stores, as a C caller does: each of its functions leaves a run of demand 3 that holds what is in
// its memory. Nothing is computed here; it is there so that every clause `honest` called here has someone who leans on it. Here are saves and what is done with
// them; the opening and the edits are `preparing`, the steps `stepping`.
#![tactic(auto)]

pub mod branches;
pub mod taking;
