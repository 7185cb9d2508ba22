// The walls, and the absorbing layer.
ghost use Rattle.std.specs.Prelude.{length};
ghost use Rattle.grid.specs.Stores.{stores};
ghost use Rattle.study.specs.History.{doing};
ghost use Rattle.study.specs.World.{set_periodic, walls_lossy, walls_cpml};
ghost use Rattle.runs.specs.Runs.{GoesOn};

use api::{memory, walls};

pub fn set_periodic(
    b: &mut [u8],
    x: bool,
    y: bool,
    z: bool,
    e: &[f64],
    h: &[f64],
    media: &[f64],
    psi_e: &[f64],
    psi_h: &[f64],
    tables: &[f64],
    poles: &[f64],
    aux: &[f64],
    ids: &[u32],
) -> u32
    ensures { GoesOn (doing (set_periodic x y z)) b.old (stores e.now h.now media.now psi_e.now psi_h.now tables.now poles.now aux.now ids.now) b.new (stores e.now h.now media.now psi_e.now psi_h.now tables.now poles.now aux.now ids.now) }
{
    let n = walls::cichowiej_set_periodic(b, x, y, z);
    memory::hold(b, e, h, media, psi_e, psi_h, tables, poles, aux, ids);
    n
}

pub fn set_boundary_lossy(
    b: &mut [u8],
    thickness: usize,
    order: usize,
    sigma_max: f64,
    e: &[f64],
    h: &[f64],
    media: &mut [f64],
    psi_e: &mut [f64],
    psi_h: &mut [f64],
    tables: &mut [f64],
    poles: &[f64],
    aux: &[f64],
    ids: &[u32],
) -> u32
    ensures { GoesOn (doing (walls_lossy (record { thickness = thickness; order = order; sigma_max = sigma_max }))) b.old (stores e.now h.now media.old psi_e.old psi_h.old tables.old poles.now aux.now ids.now) b.new (stores e.now h.now media.new psi_e.new psi_h.new tables.new poles.now aux.now ids.now) }
{
    let n = walls::cichowiej_set_boundary_lossy(
        b, thickness, order, sigma_max, psi_e, psi_h, tables, media,
    );
    memory::hold(b, e, h, media, psi_e, psi_h, tables, poles, aux, ids);
    n
}

pub fn set_boundary_cpml(
    b: &mut [u8],
    x: bool,
    y: bool,
    z: bool,
    thickness: usize,
    given: &[f64],
    e: &[f64],
    h: &[f64],
    media: &[f64],
    psi_e: &mut [f64],
    psi_h: &mut [f64],
    tables: &mut [f64],
    poles: &[f64],
    aux: &[f64],
    ids: &[u32],
    active: &mut [u32],
) -> u32
    ensures { GoesOn (doing (walls_cpml x y z thickness given.now (length active.old))) b.old (stores e.now h.now media.now psi_e.old psi_h.old tables.old poles.now aux.now ids.now) b.new (stores e.now h.now media.now psi_e.new psi_h.new tables.new poles.now aux.now ids.now) }
{
    let n = walls::cichowiej_set_boundary_cpml(
        b, x, y, z, thickness, given, psi_e, psi_h, tables, active,
    );
    memory::hold(b, e, h, media, psi_e, psi_h, tables, poles, aux, ids);
    n
}
