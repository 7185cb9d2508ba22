// Materials: added to the study, placed in its cells, and built.
ghost use Rattle.std.specs.Prelude.{◌≡◌};
ghost use Rattle.refusals.specs.Refusals.{code, value_or};
ghost use Rattle.grid.specs.Stores.{outcome};
ghost use Rattle.materials.specs.Materials.{placed, put_box_call, halfspace_call, build_call};
ghost use Rattle.calls.specs.Blocks.{sent, on_block, answered, answering, add_bytes_call, asked, told, telling};

use calls::blocks;
use cells::IndexBox;
use grid::{Record, fault};
use refusals::Refusal;

// What is put is three numbers or, where `library` is true, the material with this id; how many cells the box has goes into the room lent for it.
pub fn put_box(
    b: &mut [u8],
    i0: usize,
    i1: usize,
    j0: usize,
    j1: usize,
    k0: usize,
    k1: usize,
    library: bool,
    id: u32,
    eps_r: f64,
    mu_r: f64,
    sigma: f64,
    media: &mut [f64],
    ids: &mut [u32],
    cells: &mut [u32],
) -> Result<(), Refusal>
    ensures { sent (code result) b.new (told cells.new (placed media.new ids.new)) ≡ on_block (λ r. telling (put_box_call r (record { i0 = i0; i1 = i1; j0 = j0; j1 = j1; k0 = k0; k1 = k1 }) (asked library id eps_r mu_r sigma) (placed media.old ids.old)) cells.old) b.old (told (answered 0 cells.old) (placed media.old ids.old)) }
{
    blocks::answer(cells, 0);
    let r = blocks::record_of(b)?;
    let g = IndexBox {
        i0,
        i1,
        j0,
        j1,
        k0,
        k1,
    };
    let what = blocks::put_asked(library, id, eps_r, mu_r, sigma);
    let count = materials::put_box(r, g, what, media, ids)?;
    blocks::answer(cells, count);
    blocks::keep(b, Ok(r))
}

// The bytes are looked at first, so that the record is judged once; where they are at fault, its own fault comes before theirs.
fn add_bytes(r: Record, material: &[u8]) -> Result<(Record, u32), Refusal>
    ensures { outcome (code result) (value_or (r, 0) result).0 (value_or (r, 0) result).1 ≡ add_bytes_call material.now r }
{
    match blocks::get_material(material) {
        Ok(m) => materials::add_material(r, m),
        Err(bytes) => {
            fault::fault_of(r)?;
            Err(bytes)
        }
    }
}

// The material is 125 bytes as in a block; its id goes into the room lent for it.
pub fn add_material(b: &mut [u8], material: &[u8], id: &mut [u32]) -> Result<(), Refusal>
    ensures { sent (code result) b.new id.new ≡ on_block (λ r. answering (add_bytes_call material.now r) id.old) b.old (answered 0 id.old) }
{
    blocks::answer(id, 0);
    let r = blocks::record_of(b)?;
    let (r, added) = add_bytes(r, material)?;
    blocks::answer(id, added);
    blocks::keep(b, Ok(r))
}

pub fn assign_material_halfspace_z(
    b: &mut [u8],
    id: u32,
    k0: usize,
    media: &mut [f64],
    ids: &mut [u32],
) -> Result<(), Refusal>
    ensures { sent (code result) b.new (placed media.new ids.new) ≡ on_block (λ r. halfspace_call r id k0 (placed media.old ids.old)) b.old (placed media.old ids.old) }
{
    let r = blocks::record_of(b)?;
    materials::assign_material_halfspace_z(r, id, k0, media, ids)?;
    blocks::keep(b, Ok(r))
}

pub fn build_dispersion(b: &mut [u8], poles: &mut [f64]) -> Result<(), Refusal>
    ensures { sent (code result) b.new poles.new ≡ on_block (λ r. build_call r poles.old) b.old poles.old }
{
    let r = blocks::record_of(b)?;
    blocks::keep(b, materials::build_dispersion(r, poles))
}
