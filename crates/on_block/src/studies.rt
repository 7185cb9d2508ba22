// A study opened, and its fields cleared.
ghost use Rattle.std.specs.Prelude.{◌≡◌};
ghost use Rattle.refusals.specs.Refusals.{code};
ghost use Rattle.grid.specs.Stores.{stores};
ghost use Rattle.fields.specs.Fields.{reset, reset_call};
ghost use Rattle.calls.specs.Blocks.{sent, on_block, open_on_block};

use block::BLOCK_LENGTH;
use calls::blocks;
use fields::reset;
use grid::fault;
use refusals::Refusal;
use root::Spacings;

pub fn open(
    b: &mut [u8],
    nx: usize,
    ny: usize,
    nz: usize,
    pole_slots: usize,
    constants: usize,
    dx: f64,
    dy: f64,
    dz: f64,
    dt: f64,
    e: &mut [f64],
    h: &mut [f64],
    media: &mut [f64],
    psi_e: &mut [f64],
    psi_h: &mut [f64],
    tables: &mut [f64],
    poles: &mut [f64],
    aux: &mut [f64],
    ids: &mut [u32],
) -> Result<(), Refusal>
    ensures { sent (code result) b.new (stores e.new h.new media.new psi_e.new psi_h.new tables.new poles.new aux.new ids.new) ≡ open_on_block nx ny nz pole_slots (record { dx = dx; dy = dy; dz = dz; dt = dt }) constants b.old (stores e.old h.old media.old psi_e.old psi_h.old tables.old poles.old aux.old ids.old) }
{
    let spacings = Spacings { dx, dy, dz, dt };
    if b.len() != BLOCK_LENGTH {
        // With no earlier fault it is 4, whatever stores are lent.
        let r = opening::open_record(nx, ny, nz, pole_slots, spacings, constants);
        fault::fault_of(r)?;
        return Err(Refusal::BadStore);
    }
    let opened = opening::new_rect(
        nx, ny, nz, pole_slots, spacings, constants, e, h, media, psi_e, psi_h, tables, poles, aux,
        ids,
    );
    blocks::keep(b, opened)
}

pub fn reset_fields(
    b: &mut [u8],
    e: &mut [f64],
    h: &mut [f64],
    psi_e: &mut [f64],
    psi_h: &mut [f64],
    poles: &mut [f64],
) -> Result<(), Refusal>
    ensures { sent (code result) b.new (reset e.new h.new psi_e.new psi_h.new poles.new) ≡ on_block (λ r. reset_call r (reset e.old h.old psi_e.old psi_h.old poles.old)) b.old (reset e.old h.old psi_e.old psi_h.old poles.old) }
{
    let r = blocks::record_of(b)?;
    reset::reset_fields(r, e, h, psi_e, psi_h, poles)?;
    blocks::keep(b, Ok(r))
}
