// The graded conductivity of walls that absorb; the calls that set walls are in `walling`.
#![tactic(auto, using(std::proofs::lemmas::Bool::Decides::nat_tests), unfolding(crate::specs::Lossy::clamped, crate::specs::Lossy::wall_sigma, crate::specs::Lossy::strongest))]

pub mod lossy;

// The lossy edge: at most thickness cells from each wall, sigma_max at the wall itself, falling by a power of the depth.
#[derive(Clone, Copy)]
pub struct LossyAbsorber {
    pub thickness: usize,
    pub order: usize,
    pub sigma_max: f64,
}
