// The plane wave: the region of the total field and the auxiliary line that carries the wave. The corrections on the region's faces are defined here (specs/Corrections.antt)
// and computed by the crate `corrections`.
#![tactic(auto)]

pub mod faces;
pub mod line;
pub mod region;

ghost use Rattle.std.specs.Prelude.{◌≡◌, ◌-◌};

// The index before n, which is the last of n, and 0 where there is none.
pub fn index_before(n: usize) -> usize
    ensures { result ≡ n - 1 }
{
    n.saturating_sub(1)
}
