// The engine's calls, each under the name of the C function that api_c makes of it. include/cichowiej.h declares those.
// kept: a refusal is its number here, as C is told it; so it is in `preparing`, `stepping` and `program`, which call as C does.
#![tactic(auto)]

pub mod arithmetic;
pub mod library;
pub mod memory;
pub mod readings;
pub mod saving;
pub mod steps;
pub mod studies;
pub mod walls;
pub mod waves;
