// A program's calls before its steps: a study opened, and edited. Each function leaves a run of demand 3, as those of `program` do.
// kept: each call and `hold` spelled out, since it is by the name of the C function that its clause `honest` is had.
#![tactic(auto)]

pub mod beginning;
pub mod edges;
pub mod library;
pub mod region;
