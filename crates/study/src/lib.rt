#![tactic(auto)]

// The sample studies stand in specs/Starred.antt. The calls and their histories join this crate as they come.
