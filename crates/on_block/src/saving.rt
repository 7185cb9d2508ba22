// The save: its length, written, and taken up again.
ghost use Rattle.std.specs.Prelude.{◌≡◌};
ghost use Rattle.refusals.specs.Refusals.{code};
ghost use Rattle.grid.specs.Stores.{stores};
ghost use Rattle.format.specs.Save.{length_call, save_call};
ghost use Rattle.calls.specs.Blocks.{sent, readout, read_block, rewind_on_block, answered, answering};

use block::BLOCK_LENGTH;
use calls::blocks;
use refusals::Refusal;

pub fn save_length(b: &[u8], length: &mut [usize]) -> Result<(), Refusal>
    ensures { readout (code result) length.new ≡ read_block (λ r. answering (length_call r) length.old) b.now (answered 0 length.old) }
{
    blocks::answer(length, 0);
    let r = blocks::record_of(b)?;
    let bytes = saves::save_length(r)?;
    blocks::answer(length, bytes);
    Ok(())
}

pub fn save<'a>(
    b: &[u8],
    e: &[f64],
    h: &[f64],
    media: &[f64],
    psi_e: &'a [f64],
    psi_h: &'a [f64],
    tables: &[f64],
    poles: &[f64],
    aux: &[f64],
    ids: &[u32],
    out: &mut [u8],
) -> Result<(), Refusal>
    ensures { readout (code result) out.new ≡ read_block (λ r. save_call r (stores e.now h.now media.now psi_e.now psi_h.now tables.now poles.now aux.now ids.now) out.old) b.now out.old }
{
    let r = blocks::record_of(b)?;
    saves::save(r, e, h, media, psi_e, psi_h, tables, poles, aux, ids, out)
}

pub fn rewind(
    b: &mut [u8],
    save: &[u8],
    e: &mut [f64],
    h: &mut [f64],
    media: &mut [f64],
    psi_e: &mut [f64],
    psi_h: &mut [f64],
    tables: &mut [f64],
    poles: &mut [f64],
    aux: &mut [f64],
    ids: &mut [u32],
) -> Result<(), Refusal>
    ensures { sent (code result) b.new (stores e.new h.new media.new psi_e.new psi_h.new tables.new poles.new aux.new ids.new) ≡ rewind_on_block save.now b.old (stores e.old h.old media.old psi_e.old psi_h.old tables.old poles.old aux.old ids.old) }
{
    if b.len() != BLOCK_LENGTH {
        // With no earlier fault it is 4, whatever stores are lent.
        judge::bytes_fault(save)?;
        return Err(Refusal::BadStore);
    }
    let read = saves::rewind(save, e, h, media, psi_e, psi_h, tables, poles, aux, ids);
    blocks::keep(b, read)
}
