// The engine's calls as C functions: each calls the function of api that has its name, and has its clauses. include/cichowiej.h declares them.
#![tactic(auto)]

pub mod arithmetic;
pub mod library;
pub mod readings;
pub mod saving;
pub mod steps;
pub mod studies;
pub mod walls;
pub mod waves;
