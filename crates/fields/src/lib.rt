// The fields as a whole: cleared, their energy, and the reading of a plane.
#![tactic(auto)]

pub mod readings;
pub mod reset;

use grid::Record;
