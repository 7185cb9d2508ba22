// Materials: added to the study, placed in its cells, and built.
ghost use Rattle.std.specs.Prelude.{◌≡◌, length};
ghost use Rattle.materials.specs.Materials.{placed, put_box_call, halfspace_call, build_call};
ghost use Rattle.calls.specs.Blocks.{sent, on_block, answered, answering, add_bytes_call, asked, told, telling};
ghost use Rattle.study.specs.History.{doing};
ghost use Rattle.study.specs.World.{put_box, assign_halfspace, add_material, build_dispersion};
ghost use Rattle.study.specs.Calls.{Silently, Numbering, put_placed, put_poles, placed_of};

use refusals::code_of;

// What is put is three numbers or, where `library` is true, the material with this id; how many cells the box has goes into the room lent for it.
pub fn cichowiej_put_box(
    b: &mut [u8],
    i0: usize,
    i1: usize,
    j0: usize,
    j1: usize,
    k0: usize,
    k1: usize,
    library: bool,
    id: u32,
    eps_r: f64,
    mu_r: f64,
    sigma: f64,
    media: &mut [f64],
    ids: &mut [u32],
    cells: &mut [u32],
) -> u32
    ensures ids_after { sent result b.new (told cells.new (placed media.new ids.new)) ≡ on_block (λ r. telling (put_box_call r (record { i0 = i0; i1 = i1; j0 = j0; j1 = j1; k0 = k0; k1 = k1 }) (asked library id eps_r mu_r sigma) (placed media.old ids.old)) cells.old) b.old (told (answered 0 cells.old) (placed media.old ids.old)) }
    ensures honest { Numbering b.old b.new (λ s. placed_of s ≡ placed media.old ids.old) (put_placed (placed media.new ids.new)) (doing (put_box (record { i0 = i0; i1 = i1; j0 = j0; j1 = j1; k0 = k0; k1 = k1 }) (asked library id eps_r mu_r sigma) (length cells.old))) result cells.old cells.new }
{
    code_of(&on_block::library::put_box(
        b, i0, i1, j0, j1, k0, k1, library, id, eps_r, mu_r, sigma, media, ids, cells,
    ))
}

// The material is 125 bytes as in a block; its id goes into the room lent for it.
pub fn cichowiej_add_material(b: &mut [u8], material: &[u8], id: &mut [u32]) -> u32
    ensures id_after { sent result b.new id.new ≡ on_block (λ r. answering (add_bytes_call material.now r) id.old) b.old (answered 0 id.old) }
    ensures honest { Numbering b.old b.new (λ s. Unit {0}) (λ s. s) (doing (add_material material.now (length id.old))) result id.old id.new }
{
    code_of(&on_block::library::add_material(b, material, id))
}

pub fn cichowiej_assign_material_halfspace_z(
    b: &mut [u8],
    id: u32,
    k0: usize,
    media: &mut [f64],
    ids: &mut [u32],
) -> u32
    ensures ids_after { sent result b.new (placed media.new ids.new) ≡ on_block (λ r. halfspace_call r id k0 (placed media.old ids.old)) b.old (placed media.old ids.old) }
    ensures honest { Silently b.old b.new (λ s. placed_of s ≡ placed media.old ids.old) (put_placed (placed media.new ids.new)) (doing (assign_halfspace id k0)) result }
{
    code_of(&on_block::library::assign_material_halfspace_z(b, id, k0, media, ids))
}

pub fn cichowiej_build_dispersion(b: &mut [u8], poles: &mut [f64]) -> u32
    ensures poles_after { sent result b.new poles.new ≡ on_block (λ r. build_call r poles.old) b.old poles.old }
    ensures honest { Silently b.old b.new (λ s. s.poles ≡ poles.old) (put_poles poles.new) (doing build_dispersion) result }
{
    code_of(&on_block::library::build_dispersion(b, poles))
}
