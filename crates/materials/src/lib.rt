// Materials added to the record, placed in boxes of cells, and built.
#![tactic(auto)]

ghost use Rattle.std.specs.Prelude.{◌≡◌, true, cond, ◌*◌, ◌≤◌, ◌<◌, length, IfOk};
ghost use Rattle.refusals.specs.Refusals.{code, value_or};
ghost use Rattle.dispersion.specs.Material.{blank_slot};
ghost use Rattle.grid.specs.Canon.{canon_material};
ghost use Rattle.grid.specs.Stores.{outcome};
ghost use Rattle.materials.specs.Inner.Fillable.{Fillable};
ghost use Rattle.materials.specs.Materials.{medium_at, media_set, placed, assigned, is_known, put_into, put_fault, filled, put_box_call, halfspace_call, any_pole, built_of, build_call, add_fault, add_call};

use cells::IndexBox;
use dispersion::{DispersiveMaterial, Pole};
use grid::{Record, fault, stores};
use refusals::{Refusal, require};
use root::vacuum;

// What is put into a box: three numbers, or a registered material.
#[derive(Clone, Copy)]
pub enum Put {
    Numbers { eps_r: f64, mu_r: f64, sigma: f64 },
    Library { id: u32 },
}

// Three numbers in each cell of a box.
fn set_media(
    media: &mut [f64],
    nx: usize,
    ny: usize,
    nz: usize,
    b: IndexBox,
    eps_r: f64,
    mu_r: f64,
    sigma: f64,
)
    requires { (ny * nx ≤ 262144) × (nz * (ny * nx) ≤ 1048576) × (length media.old ≡ 3 * (nz * (ny * nx))) }
    ensures { media.new ≡ media_set nx ny nz b (medium_at eps_r mu_r sigma) media.old }
{
    let n = nz * (ny * nx);
    cells::fill_box(media, 0, nx, ny, nz, b, eps_r);
    cells::fill_box(media, n, nx, ny, nz, b, mu_r);
    cells::fill_box(media, 2 * n, nx, ny, nz, b, sigma);
}

fn is_known(r: Record, what: Put) -> bool
    ensures { result ≡ is_known r what }
{
    match what {
        Put::Numbers { .. } => true,
        Put::Library { id } => (id as usize) < r.material_count,
    }
}

#[tactic(auto, unfolding(crate::specs::Materials::put_fault, grid::specs::Stores::fault_lent, grid::specs::Stores::store_lengths), using(grid::proofs::Settled::own_fault, grid::proofs::Settled::later_fault))]
fn put_fault(r: Record, media: usize, ids: usize, what: Put) -> Result<(), Refusal>
    ensures { code result ≡ put_fault r media ids what }
{
    let l = stores::judge(r)?;
    require((media == l.media) & (ids == l.ids), Refusal::BadStore)?;
    require(is_known(r, what), Refusal::NoSuchMaterial)
}

// A registered material's numbers and its id in each cell of a box.
fn put_material(r: Record, b: IndexBox, id: u32, media: &mut [f64], ids: &mut [u32])
    requires { Fillable r (length media.old) (length ids.old) × (id < 16) }
    ensures { placed media.new ids.new ≡ assigned r b id (placed media.old ids.old) }
{
    let at = id as usize;
    let m = r.materials[at];
    set_media(media, r.nx, r.ny, r.nz, b, m.eps_inf, m.mu_r, m.sigma);
    cells::fill_box(ids, 0, r.nx, r.ny, r.nz, b, id);
}

fn put_into(r: Record, b: IndexBox, what: Put, media: &mut [f64], ids: &mut [u32])
    requires { Fillable r (length media.old) (length ids.old) × (is_known r what ≡ true) }
    ensures { placed media.new ids.new ≡ put_into r b what (placed media.old ids.old) }
{
    match what {
        Put::Numbers { eps_r, mu_r, sigma } => {
            set_media(media, r.nx, r.ny, r.nz, b, eps_r, mu_r, sigma)
        }
        Put::Library { id } => put_material(r, b, id, media, ids),
    }
}

// Puts what is asked for into each cell of a box, and answers how many cells it has. Where three numbers are put, the ids stand.
#[tactic(auto, unfolding(crate::specs::Materials::put_box_call), using(crate::proofs::Placing::fillable, grid::proofs::Settled::refused_with, grid::proofs::Settled::taken_up, refusals::proofs::Numbers::stands_in))]
pub fn put_box(
    r: Record,
    b: IndexBox,
    what: Put,
    media: &mut [f64],
    ids: &mut [u32],
) -> Result<u32, Refusal>
    ensures { outcome (code result) r (filled (placed media.new ids.new) (value_or 0 result)) ≡ put_box_call r b what (placed media.old ids.old) }
{
    put_fault(r, media.len(), ids.len(), what)?;
    put_into(r, b, what, media, ids);
    Ok(cells::box_cells(r.nx, r.ny, r.nz, b))
}

// A registered material in every cell from plane k0 on.
pub fn assign_material_halfspace_z(
    r: Record,
    id: u32,
    k0: usize,
    media: &mut [f64],
    ids: &mut [u32],
) -> Result<(), Refusal>
    ensures { outcome (code result) r (placed media.new ids.new) ≡ halfspace_call r id k0 (placed media.old ids.old) }
{
    let b = IndexBox {
        i0: 0,
        i1: r.nx,
        j0: 0,
        j1: r.ny,
        k0,
        k1: r.nz,
    };
    put_box(r, b, Put::Library { id }, media, ids)?;
    Ok(())
}

// Whether a counted material has a pole.
fn any_pole(r: Record) -> bool
    requires { r.material_count ≤ 16 }
    ensures { result ≡ any_pole r }
{
    for i in 0..r.material_count {
        if 0 < r.materials[i].pole_count {
            return true;
        }
    }
    false
}

fn built_of(r: Record) -> usize
    requires { r.material_count ≤ 16 }
    ensures { result ≡ built_of r }
{
    if any_pole(r) { r.material_count } else { 0 }
}

// Fixes the built count, and clears the pole store.
#[tactic(auto, unfolding(crate::specs::Materials::build_call, crate::specs::Materials::poles_fault, grid::specs::Stores::fault_lent, grid::specs::Stores::store_lengths), using(grid::proofs::Settled::own_fault, grid::proofs::Settled::later_fault, grid::proofs::Settled::handed_back, grid::proofs::Settled::taken_up))]
pub fn build_dispersion(r: Record, poles: &mut [f64]) -> Result<Record, Refusal>
    ensures { outcome (code result) (value_or r result) poles.new ≡ build_call r poles.old }
{
    let l = stores::judge(r)?;
    require(poles.len() == l.poles, Refusal::BadStore)?;
    poles.fill(0.0);
    Ok(Record {
        built_count: built_of(r),
        ..r
    })
}

// A pole's place as a record keeps it: blank where it is not counted.
fn kept_slot(counted: bool, s: Pole) -> Pole
    ensures { result ≡ cond counted s blank_slot }
{
    if counted { s } else { dispersion::blank_slot() }
}

// A material as a record keeps it.
fn kept_material(m: DispersiveMaterial) -> DispersiveMaterial
    ensures { result ≡ canon_material m }
{
    let n = m.pole_count;
    let a = kept_slot(0 < n, m.poles[0]);
    let b = kept_slot(1 < n, m.poles[1]);
    let c = kept_slot(2 < n, m.poles[2]);
    let d = kept_slot(3 < n, m.poles[3]);
    DispersiveMaterial {
        poles: [a, b, c, d],
        ..m
    }
}

#[tactic(auto, unfolding(crate::specs::Materials::add_fault), using(grid::proofs::Settled::own_fault, grid::proofs::Settled::later_fault))]
fn add_fault(r: Record, m: DispersiveMaterial) -> Result<(), Refusal>
    ensures fault { code result ≡ add_fault r m }
    ensures free { IfOk result (λ _. r.material_count < 16) }
{
    fault::fault_of(r)?;
    require(m.pole_count <= r.pole_slots, Refusal::TooManyPoles)?;
    let eps0 = vacuum::chosen(r.constants).eps0;
    require(
        fault::material_steps(m, eps0, r.spacings.dt),
        Refusal::BadPole,
    )?;
    require(r.material_count < fault::MAX_MATERIALS, Refusal::Full)
}

// Puts a material behind those that stand, and answers its id.
#[tactic(auto, unfolding(crate::specs::Materials::add_call, crate::specs::Materials::added), using(grid::proofs::Settled::refused_with, grid::proofs::Settled::taken_up, refusals::proofs::Numbers::stands_in))]
pub fn add_material(r: Record, m: DispersiveMaterial) -> Result<(Record, u32), Refusal>
    ensures { outcome (code result) (value_or (r, 0) result).0 (value_or (r, 0) result).1 ≡ add_call r m }
{
    add_fault(r, m)?;
    let at = r.material_count;
    let mut q = r;
    q.materials[at] = kept_material(m);
    q.material_count = at + 1;
    Ok((q, at as u32))
}
