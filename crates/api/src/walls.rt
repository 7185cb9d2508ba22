// The walls and the absorbing layer.
ghost use Rattle.std.specs.Prelude.{◌≡◌, true, false, [], ◌∷◌, length};
ghost use Rattle.opening.specs.Layer.{layer};
ghost use Rattle.boundary.specs.Walls.{set_periodic_call, set_plain_call, lossed, set_lossy_call};
ghost use Rattle.cpml.specs.Absorber.{set_cpml_call};
ghost use Rattle.calls.specs.Blocks.{sent, on_block, answered, naming, named};
ghost use Rattle.study.specs.History.{doing};
ghost use Rattle.study.specs.World.{set_periodic, walls_periodic, walls_conductor, walls_lossy, walls_cpml};
ghost use Rattle.study.specs.Calls.{Silently, Numbering, put_layer, put_lossed, layer_of, lossed_of};

use refusals::code_of;

pub fn cichowiej_set_periodic(b: &mut [u8], x: bool, y: bool, z: bool) -> u32
    ensures tt_after { sent result b.new tt ≡ on_block (λ r. set_periodic_call r (x ∷ y ∷ z ∷ [])) b.old tt }
    ensures honest { Silently b.old b.new (λ s. Unit {0}) (λ s. s) (doing (set_periodic x y z)) result }
{
    code_of(&on_block::walls::set_periodic(b, x, y, z))
}

pub fn cichowiej_set_boundary_periodic(
    b: &mut [u8],
    psi_e: &mut [f64],
    psi_h: &mut [f64],
    tables: &mut [f64],
) -> u32
    ensures tables_after { sent result b.new (layer psi_e.new psi_h.new tables.new) ≡ on_block (λ r. set_plain_call true r (layer psi_e.old psi_h.old tables.old)) b.old (layer psi_e.old psi_h.old tables.old) }
    ensures honest { Silently b.old b.new (λ s. layer_of s ≡ layer psi_e.old psi_h.old tables.old) (put_layer (layer psi_e.new psi_h.new tables.new)) (doing walls_periodic) result }
{
    code_of(&on_block::walls::set_boundary_periodic(b, psi_e, psi_h, tables))
}

pub fn cichowiej_set_boundary_conductor(
    b: &mut [u8],
    psi_e: &mut [f64],
    psi_h: &mut [f64],
    tables: &mut [f64],
) -> u32
    ensures tables_after { sent result b.new (layer psi_e.new psi_h.new tables.new) ≡ on_block (λ r. set_plain_call false r (layer psi_e.old psi_h.old tables.old)) b.old (layer psi_e.old psi_h.old tables.old) }
    ensures honest { Silently b.old b.new (λ s. layer_of s ≡ layer psi_e.old psi_h.old tables.old) (put_layer (layer psi_e.new psi_h.new tables.new)) (doing walls_conductor) result }
{
    code_of(&on_block::walls::set_boundary_conductor(b, psi_e, psi_h, tables))
}

pub fn cichowiej_set_boundary_lossy(
    b: &mut [u8],
    thickness: usize,
    order: usize,
    sigma_max: f64,
    psi_e: &mut [f64],
    psi_h: &mut [f64],
    tables: &mut [f64],
    media: &mut [f64],
) -> u32
    ensures media_after { sent result b.new (lossed psi_e.new psi_h.new tables.new media.new) ≡ on_block (λ r. set_lossy_call r (record { thickness = thickness; order = order; sigma_max = sigma_max }) (lossed psi_e.old psi_h.old tables.old media.old)) b.old (lossed psi_e.old psi_h.old tables.old media.old) }
    ensures honest { Silently b.old b.new (λ s. lossed_of s ≡ lossed psi_e.old psi_h.old tables.old media.old) (put_lossed (lossed psi_e.new psi_h.new tables.new media.new)) (doing (walls_lossy (record { thickness = thickness; order = order; sigma_max = sigma_max }))) result }
{
    code_of(&on_block::walls::set_boundary_lossy(
        b, thickness, order, sigma_max, psi_e, psi_h, tables, media,
    ))
}

// Which axes are active goes into the room lent for it: 1 x, 2 y, 4 z, added.
pub fn cichowiej_set_boundary_cpml(
    b: &mut [u8],
    x: bool,
    y: bool,
    z: bool,
    thickness: usize,
    given: &[f64],
    psi_e: &mut [f64],
    psi_h: &mut [f64],
    tables: &mut [f64],
    active: &mut [u32],
) -> u32
    ensures tables_after { sent result b.new (named active.new (layer psi_e.new psi_h.new tables.new)) ≡ on_block (λ r. naming (set_cpml_call r (x ∷ y ∷ z ∷ []) thickness given.now (layer psi_e.old psi_h.old tables.old)) active.old) b.old (named (answered 0 active.old) (layer psi_e.old psi_h.old tables.old)) }
    ensures honest { Numbering b.old b.new (λ s. layer_of s ≡ layer psi_e.old psi_h.old tables.old) (put_layer (layer psi_e.new psi_h.new tables.new)) (doing (walls_cpml x y z thickness given.now (length active.old))) result active.old active.new }
{
    code_of(&on_block::walls::set_boundary_cpml(
        b, x, y, z, thickness, given, psi_e, psi_h, tables, active,
    ))
}
