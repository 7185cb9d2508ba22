// A study opened.
ghost use Rattle.std.specs.Prelude.{◌≡◌, length};
ghost use Rattle.grid.specs.Stores.{stores, lengths_of};
ghost use Rattle.study.specs.History.{opening};
ghost use Rattle.runs.specs.Runs.{Begins, GoesOn};

use api::{memory, studies};

pub fn open(
    b: &mut [u8],
    nx: usize,
    ny: usize,
    nz: usize,
    pole_slots: usize,
    constants: usize,
    dx: f64,
    dy: f64,
    dz: f64,
    dt: f64,
    e: &mut [f64],
    h: &mut [f64],
    media: &mut [f64],
    psi_e: &mut [f64],
    psi_h: &mut [f64],
    tables: &mut [f64],
    poles: &mut [f64],
    aux: &mut [f64],
    ids: &mut [u32],
) -> u32
    ensures begins { result ≡ 0 → Begins (opening (record { nx = nx; ny = ny; nz = nz; slots = pole_slots; spacings = record { dx = dx; dy = dy; dz = dz; dt = dt }; constants = constants }) (record { block = length b.old; stores = lengths_of (stores e.old h.old media.old psi_e.old psi_h.old tables.old poles.old aux.old ids.old) })) b.new (stores e.new h.new media.new psi_e.new psi_h.new tables.new poles.new aux.new ids.new) }
    ensures goes { GoesOn (opening (record { nx = nx; ny = ny; nz = nz; slots = pole_slots; spacings = record { dx = dx; dy = dy; dz = dz; dt = dt }; constants = constants }) (record { block = length b.old; stores = lengths_of (stores e.old h.old media.old psi_e.old psi_h.old tables.old poles.old aux.old ids.old) })) b.old (stores e.old h.old media.old psi_e.old psi_h.old tables.old poles.old aux.old ids.old) b.new (stores e.new h.new media.new psi_e.new psi_h.new tables.new poles.new aux.new ids.new) }
{
    memory::hold(b, e, h, media, psi_e, psi_h, tables, poles, aux, ids);
    let n = studies::cichowiej_open(
        b, nx, ny, nz, pole_slots, constants, dx, dy, dz, dt, e, h, media, psi_e, psi_h, tables,
        poles, aux, ids,
    );
    memory::hold(b, e, h, media, psi_e, psi_h, tables, poles, aux, ids);
    n
}
