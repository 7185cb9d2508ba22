// Opening a study, as the Rust's new_rect.
#![tactic(auto)]

pub mod layer;

ghost use Rattle.std.specs.Prelude.{◌≡◌, ◌+◌, ◌*◌, ◌≤◌, length};
ghost use Rattle.codec.specs.Lists.{put};
ghost use Rattle.refusals.specs.Refusals.{code, value_or};
ghost use Rattle.grid.specs.declared.Record.{Record};
ghost use Rattle.grid.specs.Inner.Sound.{Sound};
ghost use Rattle.grid.specs.Stores.{stores, outcome, store_lengths, lengths_of};
ghost use Rattle.opening.specs.Opening.{open_record, open_media, inactive, open_tables, open_stores, open_call};

use dispersion::DispersiveMaterial;
use grid::{Clock, Record, Region, RegionKind, stores};
use refusals::Refusal;
use root::Spacings;

// What an accepted opening gives; nothing is judged here. A host takes its first standing record from it.
pub fn open_record(
    nx: usize,
    ny: usize,
    nz: usize,
    pole_slots: usize,
    spacings: Spacings,
    constants: usize,
) -> Record
    ensures { result ≡ open_record nx ny nz pole_slots spacings constants }
{
    Record {
        nx,
        ny,
        nz,
        pole_slots,
        spacings,
        periodic: [false; 3],
        active: [false; 3],
        layer_on: false,
        materials: [DispersiveMaterial::vacuum(); 16],
        material_count: 1,
        built_count: 0,
        region: Region {
            kind: RegionKind::Absent,
            i0: 0,
            i1: 0,
            j0: 0,
            j1: 0,
            k0: 0,
            k1: 0,
        },
        clock: Clock {
            time: 0.0,
            steps: 0,
        },
        constants,
    }
}

// eps_r and mu_r 1.0, sigma +0.0.
fn open_media(media: &mut [f64], n: usize)
    requires { length media.old ≡ 3 * n }
    ensures { media.new ≡ open_media n }
{
    stores::fill(media, 0, 2 * n, 1.0);
    stores::fill(media, 2 * n, n, 0.0);
}

// One axis's six tables with nothing absorbed.
pub fn inactive_axis(tables: &mut [f64], at: usize, n: usize)
    requires { at + 6 * n ≤ length tables.old }
    ensures { tables.new ≡ put tables.old at (inactive n) }
{
    stores::fill(tables, at, n, 1.0);
    stores::fill(tables, at + n, 2 * n, 0.0);
    stores::fill(tables, at + 3 * n, n, 1.0);
    stores::fill(tables, at + 4 * n, 2 * n, 0.0);
}

pub fn open_tables(tables: &mut [f64], nx: usize, ny: usize, nz: usize)
    requires { length tables.old ≡ 6 * (nx + ny + nz) }
    ensures { tables.new ≡ open_tables nx ny nz }
{
    inactive_axis(tables, 0, nx);
    inactive_axis(tables, 6 * nx, ny);
    inactive_axis(tables, 6 * nx + 6 * ny, nz);
}

fn open_stores(
    r: Record,
    e: &mut [f64],
    h: &mut [f64],
    media: &mut [f64],
    psi_e: &mut [f64],
    psi_h: &mut [f64],
    tables: &mut [f64],
    poles: &mut [f64],
    aux: &mut [f64],
    ids: &mut [u32],
)
    requires { Sound r × (lengths_of (stores e.old h.old media.old psi_e.old psi_h.old tables.old poles.old aux.old ids.old) ≡ store_lengths r) }
    ensures { stores e.new h.new media.new psi_e.new psi_h.new tables.new poles.new aux.new ids.new ≡ open_stores r }
{
    let n = r.nx * r.ny * r.nz;
    e.fill(0.0);
    h.fill(0.0);
    open_media(media, n);
    psi_e.fill(0.0);
    psi_h.fill(0.0);
    open_tables(tables, r.nx, r.ny, r.nz);
    poles.fill(0.0);
    aux.fill(0.0);
    ids.fill(0);
}

// Opens a study in the nine lent stores. A study that stands, and is to be opened anew, stays as it was where this is refused.
pub fn new_rect(
    nx: usize,
    ny: usize,
    nz: usize,
    pole_slots: usize,
    spacings: Spacings,
    constants: usize,
    e: &mut [f64],
    h: &mut [f64],
    media: &mut [f64],
    psi_e: &mut [f64],
    psi_h: &mut [f64],
    tables: &mut [f64],
    poles: &mut [f64],
    aux: &mut [f64],
    ids: &mut [u32],
) -> Result<Record, Refusal>
    ensures { (standing : Record) → outcome (code result) (value_or standing result) (stores e.new h.new media.new psi_e.new psi_h.new tables.new poles.new aux.new ids.new) ≡ open_call standing nx ny nz pole_slots spacings constants (stores e.old h.old media.old psi_e.old psi_h.old tables.old poles.old aux.old ids.old) }
{
    let r = open_record(nx, ny, nz, pole_slots, spacings, constants);
    let lent = stores::lengths_of(e, h, media, psi_e, psi_h, tables, poles, aux, ids);
    stores::fault_with(r, lent)?;
    open_stores(r, e, h, media, psi_e, psi_h, tables, poles, aux, ids);
    Ok(r)
}
