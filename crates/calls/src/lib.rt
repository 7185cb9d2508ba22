// What each C function on a study comes to stands in specs/Blocks.antt; the functions are `api`'s. Here is what they share.
#![tactic(auto)]

pub mod blocks;
pub mod poles;
