// Each call on the record that a block holds. The C functions call these and promise more: that the made call is one of demand 3's machine.
#![tactic(auto, using(crate::proofs::Passing::ill, crate::proofs::Passing::clock_ill))]

pub mod library;
pub mod saving;
pub mod steps;
pub mod studies;
pub mod walls;
pub mod waves;
