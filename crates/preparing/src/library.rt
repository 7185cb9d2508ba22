// Materials, and where they stand.
ghost use Rattle.std.specs.Prelude.{length};
ghost use Rattle.grid.specs.Stores.{stores};
ghost use Rattle.calls.specs.Blocks.{asked};
ghost use Rattle.study.specs.History.{doing};
ghost use Rattle.study.specs.World.{put_box, add_material, build_dispersion};
ghost use Rattle.runs.specs.Runs.{GoesOn};

use api::{library, memory};

pub fn put_box(
    b: &mut [u8],
    i0: usize,
    i1: usize,
    j0: usize,
    j1: usize,
    k0: usize,
    k1: usize,
    library: bool,
    id: u32,
    eps_r: f64,
    mu_r: f64,
    sigma: f64,
    e: &[f64],
    h: &[f64],
    media: &mut [f64],
    psi_e: &[f64],
    psi_h: &[f64],
    tables: &[f64],
    poles: &[f64],
    aux: &[f64],
    ids: &mut [u32],
    cells: &mut [u32],
) -> u32
    ensures { GoesOn (doing (put_box (record { i0 = i0; i1 = i1; j0 = j0; j1 = j1; k0 = k0; k1 = k1 }) (asked library id eps_r mu_r sigma) (length cells.old))) b.old (stores e.now h.now media.old psi_e.now psi_h.now tables.now poles.now aux.now ids.old) b.new (stores e.now h.now media.new psi_e.now psi_h.now tables.now poles.now aux.now ids.new) }
{
    let n = library::cichowiej_put_box(
        b, i0, i1, j0, j1, k0, k1, library, id, eps_r, mu_r, sigma, media, ids, cells,
    );
    memory::hold(b, e, h, media, psi_e, psi_h, tables, poles, aux, ids);
    n
}

pub fn add_material(
    b: &mut [u8],
    material: &[u8],
    e: &[f64],
    h: &[f64],
    media: &[f64],
    psi_e: &[f64],
    psi_h: &[f64],
    tables: &[f64],
    poles: &[f64],
    aux: &[f64],
    ids: &[u32],
    id: &mut [u32],
) -> u32
    ensures { GoesOn (doing (add_material material.now (length id.old))) b.old (stores e.now h.now media.now psi_e.now psi_h.now tables.now poles.now aux.now ids.now) b.new (stores e.now h.now media.now psi_e.now psi_h.now tables.now poles.now aux.now ids.now) }
{
    let n = library::cichowiej_add_material(b, material, id);
    memory::hold(b, e, h, media, psi_e, psi_h, tables, poles, aux, ids);
    n
}

pub fn build_dispersion(
    b: &mut [u8],
    e: &[f64],
    h: &[f64],
    media: &[f64],
    psi_e: &[f64],
    psi_h: &[f64],
    tables: &[f64],
    poles: &mut [f64],
    aux: &[f64],
    ids: &[u32],
) -> u32
    ensures { GoesOn (doing (build_dispersion)) b.old (stores e.now h.now media.now psi_e.now psi_h.now tables.now poles.old aux.now ids.now) b.new (stores e.now h.now media.now psi_e.now psi_h.now tables.now poles.new aux.now ids.now) }
{
    let n = library::cichowiej_build_dispersion(b, poles);
    memory::hold(b, e, h, media, psi_e, psi_h, tables, poles, aux, ids);
    n
}
