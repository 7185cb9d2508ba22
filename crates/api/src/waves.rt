// The wave's region.
ghost use Rattle.std.specs.Prelude.{◌≡◌};
ghost use Rattle.grid.specs.declared.RegionKind.TheVariants.{BoxRegion};
ghost use Rattle.tfsf.specs.Wave.{slab_z, injector_z, region_call};
ghost use Rattle.calls.specs.Blocks.{sent, on_block};
ghost use Rattle.study.specs.History.{doing};
ghost use Rattle.study.specs.World.{slab, injector, box_region};
ghost use Rattle.study.specs.Calls.{Silently, put_aux};

use refusals::code_of;

pub fn cichowiej_slab_z(b: &mut [u8], k0: usize, k1: usize, aux: &mut [f64]) -> u32
    ensures aux_after { sent result b.new aux.new ≡ on_block (λ r. region_call r (slab_z r k0 k1) aux.old) b.old aux.old }
    ensures honest { Silently b.old b.new (λ s. s.aux ≡ aux.old) (put_aux aux.new) (doing (slab k0 k1)) result }
{
    code_of(&on_block::waves::slab_z(b, k0, k1, aux))
}

pub fn cichowiej_injector_z(b: &mut [u8], k0: usize, aux: &mut [f64]) -> u32
    ensures aux_after { sent result b.new aux.new ≡ on_block (λ r. region_call r (injector_z r k0) aux.old) b.old aux.old }
    ensures honest { Silently b.old b.new (λ s. s.aux ≡ aux.old) (put_aux aux.new) (doing (injector k0)) result }
{
    code_of(&on_block::waves::injector_z(b, k0, aux))
}

pub fn cichowiej_box_region(
    b: &mut [u8],
    i0: usize,
    i1: usize,
    j0: usize,
    j1: usize,
    k0: usize,
    k1: usize,
    aux: &mut [f64],
) -> u32
    ensures aux_after { sent result b.new aux.new ≡ on_block (λ r. region_call r (record { kind = BoxRegion; i0 = i0; i1 = i1; j0 = j0; j1 = j1; k0 = k0; k1 = k1 }) aux.old) b.old aux.old }
    ensures honest { Silently b.old b.new (λ s. s.aux ≡ aux.old) (put_aux aux.new) (doing (box_region i0 i1 j0 j1 k0 k1)) result }
{
    code_of(&on_block::waves::box_region(b, i0, i1, j0, j1, k0, k1, aux))
}
