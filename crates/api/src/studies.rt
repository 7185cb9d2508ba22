// A study opened, and its fields cleared.
ghost use Rattle.std.specs.Prelude.{◌≡◌, length};
ghost use Rattle.grid.specs.Stores.{stores};
ghost use Rattle.fields.specs.Fields.{reset, reset_call};
ghost use Rattle.calls.specs.Blocks.{sent, on_block, open_on_block};
ghost use Rattle.grid.specs.Stores.{lengths_of};
ghost use Rattle.study.specs.History.{doing, opening};
ghost use Rattle.study.specs.World.{reset_fields};
ghost use Rattle.study.specs.Calls.{Silently, put_reset, reset_of};

use refusals::code_of;

pub fn cichowiej_open(
    b: &mut [u8],
    nx: usize,
    ny: usize,
    nz: usize,
    pole_slots: usize,
    constants: usize,
    dx: f64,
    dy: f64,
    dz: f64,
    dt: f64,
    e: &mut [f64],
    h: &mut [f64],
    media: &mut [f64],
    psi_e: &mut [f64],
    psi_h: &mut [f64],
    tables: &mut [f64],
    poles: &mut [f64],
    aux: &mut [f64],
    ids: &mut [u32],
) -> u32
    ensures ids_after { sent result b.new (stores e.new h.new media.new psi_e.new psi_h.new tables.new poles.new aux.new ids.new) ≡ open_on_block nx ny nz pole_slots (record { dx = dx; dy = dy; dz = dz; dt = dt }) constants b.old (stores e.old h.old media.old psi_e.old psi_h.old tables.old poles.old aux.old ids.old) }
    ensures honest { Silently b.old b.new (λ s. s ≡ stores e.old h.old media.old psi_e.old psi_h.old tables.old poles.old aux.old ids.old) (λ s. stores e.new h.new media.new psi_e.new psi_h.new tables.new poles.new aux.new ids.new) (opening (record { nx = nx; ny = ny; nz = nz; slots = pole_slots; spacings = record { dx = dx; dy = dy; dz = dz; dt = dt }; constants = constants }) (record { block = length b.old; stores = lengths_of (stores e.old h.old media.old psi_e.old psi_h.old tables.old poles.old aux.old ids.old) })) result }
{
    code_of(&on_block::studies::open(
        b, nx, ny, nz, pole_slots, constants, dx, dy, dz, dt, e, h, media, psi_e, psi_h, tables,
        poles, aux, ids,
    ))
}

pub fn cichowiej_reset_fields(
    b: &mut [u8],
    e: &mut [f64],
    h: &mut [f64],
    psi_e: &mut [f64],
    psi_h: &mut [f64],
    poles: &mut [f64],
) -> u32
    ensures poles_after { sent result b.new (reset e.new h.new psi_e.new psi_h.new poles.new) ≡ on_block (λ r. reset_call r (reset e.old h.old psi_e.old psi_h.old poles.old)) b.old (reset e.old h.old psi_e.old psi_h.old poles.old) }
    ensures honest { Silently b.old b.new (λ s. reset_of s ≡ reset e.old h.old psi_e.old psi_h.old poles.old) (put_reset (reset e.new h.new psi_e.new psi_h.new poles.new)) (doing reset_fields) result }
{
    code_of(&on_block::studies::reset_fields(b, e, h, psi_e, psi_h, poles))
}
