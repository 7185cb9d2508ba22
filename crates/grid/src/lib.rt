// The study record, its nine stores, and the four refusals that come first in every call.
#![tactic(auto)]

pub mod fault;
pub mod stores;

use dispersion::DispersiveMaterial;
use root::Spacings;

// Which faces of a total-field/scattered-field region are closed: none, the two z faces, the lower z face, all six.
#[derive(Clone, Copy)]
pub enum RegionKind {
    Absent,
    SlabZ,
    InjectorZ,
    BoxRegion,
}

// The corners are inclusive; those of an absent region mean nothing.
#[derive(Clone, Copy)]
pub struct Region {
    pub kind: RegionKind,
    pub i0: usize,
    pub i1: usize,
    pub j0: usize,
    pub j1: usize,
    pub k0: usize,
    pub k1: usize,
}

#[derive(Clone, Copy)]
pub struct Clock {
    pub time: f64,
    pub steps: u32,
}

// built_count is the number of materials when dispersion was last built, 0 where it is off. constants is the set of vacuum's constants, 0 the Rust's and 1
// those of 2019.
#[derive(Clone, Copy)]
pub struct Record {
    pub nx: usize,
    pub ny: usize,
    pub nz: usize,
    pub pole_slots: usize,
    pub spacings: Spacings,
    pub periodic: [bool; 3],
    pub active: [bool; 3],
    pub layer_on: bool,
    pub materials: [DispersiveMaterial; 16],
    pub material_count: usize,
    pub built_count: usize,
    pub region: Region,
    pub clock: Clock,
    pub constants: usize,
}
