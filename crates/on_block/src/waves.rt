// The wave's region.
ghost use Rattle.std.specs.Prelude.{◌≡◌};
ghost use Rattle.refusals.specs.Refusals.{code};
ghost use Rattle.grid.specs.declared.RegionKind.TheVariants.{BoxRegion};
ghost use Rattle.tfsf.specs.Wave.{slab_z, injector_z, region_call};
ghost use Rattle.calls.specs.Blocks.{sent, on_block};

use calls::blocks;
use refusals::Refusal;
use tfsf::region;

pub fn slab_z(b: &mut [u8], k0: usize, k1: usize, aux: &mut [f64]) -> Result<(), Refusal>
    ensures { sent (code result) b.new aux.new ≡ on_block (λ r. region_call r (slab_z r k0 k1) aux.old) b.old aux.old }
{
    let r = blocks::record_of(b)?;
    blocks::keep(b, region::slab_z(r, k0, k1, aux))
}

pub fn injector_z(b: &mut [u8], k0: usize, aux: &mut [f64]) -> Result<(), Refusal>
    ensures { sent (code result) b.new aux.new ≡ on_block (λ r. region_call r (injector_z r k0) aux.old) b.old aux.old }
{
    let r = blocks::record_of(b)?;
    blocks::keep(b, region::injector_z(r, k0, aux))
}

pub fn box_region(
    b: &mut [u8],
    i0: usize,
    i1: usize,
    j0: usize,
    j1: usize,
    k0: usize,
    k1: usize,
    aux: &mut [f64],
) -> Result<(), Refusal>
    ensures { sent (code result) b.new aux.new ≡ on_block (λ r. region_call r (record { kind = BoxRegion; i0 = i0; i1 = i1; j0 = j0; j1 = j1; k0 = k0; k1 = k1 }) aux.old) b.old aux.old }
{
    let r = blocks::record_of(b)?;
    blocks::keep(b, region::box_region(r, i0, i1, j0, j1, k0, k1, aux))
}
