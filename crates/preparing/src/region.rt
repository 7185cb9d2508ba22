// The wave's region.
ghost use Rattle.grid.specs.Stores.{stores};
ghost use Rattle.study.specs.History.{doing};
ghost use Rattle.study.specs.World.{slab};
ghost use Rattle.runs.specs.Runs.{GoesOn};

use api::{memory, waves};

pub fn slab_z(
    b: &mut [u8],
    k0: usize,
    k1: usize,
    e: &[f64],
    h: &[f64],
    media: &[f64],
    psi_e: &[f64],
    psi_h: &[f64],
    tables: &[f64],
    poles: &[f64],
    aux: &mut [f64],
    ids: &[u32],
) -> u32
    ensures { GoesOn (doing (slab k0 k1)) b.old (stores e.now h.now media.now psi_e.now psi_h.now tables.now poles.now aux.old ids.now) b.new (stores e.now h.now media.now psi_e.now psi_h.now tables.now poles.now aux.new ids.now) }
{
    let n = waves::cichowiej_slab_z(b, k0, k1, aux);
    memory::hold(b, e, h, media, psi_e, psi_h, tables, poles, aux, ids);
    n
}
