// What both half steps share.
#![tactic(auto)]

pub mod rows;
pub mod single;
pub mod turns;

// One axis: its cells, their size, whether it wraps, whether its layer is on, and where its component begins in a field, its two memories among the six,
// and its three tables among all tables.
// kept: `on` beside what it turns on, as `term` of specs/Yee.antt has it.
#[derive(Clone, Copy)]
pub struct Axis {
    pub n: usize,
    pub d: f64,
    pub wraps: bool,
    pub on: bool,
    pub at: usize,
    pub mem: usize,
    pub tab: usize,
}

// The layer's numbers at one place.
#[derive(Clone, Copy)]
pub struct Coef {
    pub kinv: f64,
    pub b: f64,
    pub c: f64,
}
