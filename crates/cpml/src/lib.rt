// The convolutional absorbing layer: its memories, its tables, and the call that sets it.
#![tactic(auto)]

pub mod absorber;
pub mod memory;

// A memory by the field that it belongs to and the axis of its derivative, in store order.
#[derive(Clone, Copy)]
pub enum Psi {
    Exy,
    Exz,
    Eyz,
    Eyx,
    Ezx,
    Ezy,
    Hxy,
    Hxz,
    Hyz,
    Hyx,
    Hzx,
    Hzy,
}

// Which store a memory lies in, and which of that store's six parts it is.
// kept: `place_of` of specs/Memory.antt makes it.
#[derive(Clone, Copy)]
pub struct Place {
    pub electric: bool,
    pub number: usize,
}

// A memory after a step, and what it adds to the derivative.
#[derive(Clone, Copy)]
pub struct Advanced {
    pub memory: f64,
    pub answer: f64,
}
