// The total-field region set as a slab, an injector or a box.
ghost use Rattle.std.specs.Prelude.{◌≡◌};
ghost use Rattle.grid.specs.declared.RegionKind.TheVariants.{BoxRegion};
ghost use Rattle.grid.specs.Edited.{with_region};
ghost use Rattle.refusals.specs.Refusals.{code, value_or};
ghost use Rattle.grid.specs.Stores.{outcome};
ghost use Rattle.tfsf.specs.Wave.{slab_z, injector_z, region_fault, restarted, region_call};

use crate::index_before;
use grid::{Clock, Record, Region, RegionKind, fault, stores};
use refusals::{Refusal, require};

#[tactic(auto, unfolding(crate::specs::Wave::region_fault, grid::specs::Stores::fault_lent), using(grid::proofs::Settled::own_fault, grid::proofs::Settled::later_fault))]
fn region_fault(r: Record, g: Region, aux: usize) -> Result<(), Refusal>
    ensures { code result ≡ region_fault r g aux }
{
    let l = stores::judge(r)?;
    require(aux == l.aux, Refusal::BadStore)?;
    require(fault::corners_fit(g, r.nx, r.ny, r.nz), Refusal::BadRegion)
}

fn with_region(r: Record, g: Region) -> Record
    ensures { result ≡ with_region r g (restarted r.clock) }
{
    Record {
        region: g,
        clock: Clock {
            time: 0.0,
            steps: r.clock.steps,
        },
        ..r
    }
}

#[tactic(auto, unfolding(crate::specs::Wave::region_call), using(grid::proofs::Settled::handed_back, grid::proofs::Settled::taken_up))]
fn set_region(r: Record, g: Region, aux: &mut [f64]) -> Result<Record, Refusal>
    ensures { outcome (code result) (value_or r result) aux.new ≡ region_call r g aux.old }
{
    region_fault(r, g, aux.len())?;
    aux.fill(0.0);
    Ok(with_region(r, g))
}

// Only the two z faces are closed: for layers under a wave that is the same all over x and y.
pub fn slab_z(r: Record, k0: usize, k1: usize, aux: &mut [f64]) -> Result<Record, Refusal>
    ensures { outcome (code result) (value_or r result) aux.new ≡ region_call r (slab_z r k0 k1) aux.old }
{
    let g = Region {
        kind: RegionKind::SlabZ,
        i0: 0,
        i1: index_before(r.nx),
        j0: 0,
        j1: index_before(r.ny),
        k0,
        k1,
    };
    set_region(r, g, aux)
}

// Only the lower z face is closed: everything from k0 on is total field.
pub fn injector_z(r: Record, k0: usize, aux: &mut [f64]) -> Result<Record, Refusal>
    ensures { outcome (code result) (value_or r result) aux.new ≡ region_call r (injector_z r k0) aux.old }
{
    let g = Region {
        kind: RegionKind::InjectorZ,
        i0: 0,
        i1: index_before(r.nx),
        j0: 0,
        j1: index_before(r.ny),
        k0,
        k1: index_before(r.nz),
    };
    set_region(r, g, aux)
}

// All six faces are closed.
pub fn box_region(
    r: Record,
    i0: usize,
    i1: usize,
    j0: usize,
    j1: usize,
    k0: usize,
    k1: usize,
    aux: &mut [f64],
) -> Result<Record, Refusal>
    ensures { outcome (code result) (value_or r result) aux.new ≡ region_call r (record { kind = BoxRegion; i0 = i0; i1 = i1; j0 = j0; j1 = j1; k0 = k0; k1 = k1 }) aux.old }
{
    let g = Region {
        kind: RegionKind::BoxRegion,
        i0,
        i1,
        j0,
        j1,
        k0,
        k1,
    };
    set_region(r, g, aux)
}
