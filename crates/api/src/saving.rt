// The save: its length, written, and taken up again.
ghost use Rattle.std.specs.Prelude.{◌≡◌, length as long, take, []};
ghost use Rattle.grid.specs.Stores.{stores};
ghost use Rattle.format.specs.Save.{length_call, save_call};
ghost use Rattle.calls.specs.Blocks.{sent, readout, read_block, rewind_on_block, answered, answering};
ghost use Rattle.grid.specs.Stores.{lengths_of};
ghost use Rattle.format.specs.Save.{save_length};
ghost use Rattle.block.specs.Block.{block_record};
ghost use Rattle.study.specs.History.{doing, saving, rewinding};
ghost use Rattle.study.specs.World.{ask_length, numbers};
ghost use Rattle.study.specs.Calls.{Silently, Numbering, MadeOn, reply_of};

use refusals::code_of;

pub fn cichowiej_save_length(b: &[u8], length: &mut [usize]) -> u32
    ensures length_after { readout result length.new ≡ read_block (λ r. answering (length_call r) length.old) b.now (answered 0 length.old) }
    ensures honest { Numbering b.now b.now (λ s. Unit {0}) (λ s. s) (doing (ask_length (long length.old))) result length.old length.new }
{
    code_of(&on_block::saving::save_length(b, length))
}

pub fn cichowiej_save<'a>(
    b: &[u8],
    e: &[f64],
    h: &[f64],
    media: &[f64],
    psi_e: &'a [f64],
    psi_h: &'a [f64],
    tables: &[f64],
    poles: &[f64],
    aux: &[f64],
    ids: &[u32],
    out: &mut [u8],
) -> u32
    ensures out_after { readout result out.new ≡ read_block (λ r. save_call r (stores e.now h.now media.now psi_e.now psi_h.now tables.now poles.now aux.now ids.now) out.old) b.now out.old }
    ensures honest { MadeOn b.now b.now (λ s. s ≡ stores e.now h.now media.now psi_e.now psi_h.now tables.now poles.now aux.now ids.now) (λ s. s) (saving (long out.old)) (numbers out.old) (reply_of result (numbers []) (numbers (take (save_length (block_record b.now)) out.new))) (numbers out.new) }
{
    code_of(&on_block::saving::save(b, e, h, media, psi_e, psi_h, tables, poles, aux, ids, out))
}

pub fn cichowiej_rewind(
    b: &mut [u8],
    save: &[u8],
    e: &mut [f64],
    h: &mut [f64],
    media: &mut [f64],
    psi_e: &mut [f64],
    psi_h: &mut [f64],
    tables: &mut [f64],
    poles: &mut [f64],
    aux: &mut [f64],
    ids: &mut [u32],
) -> u32
    ensures ids_after { sent result b.new (stores e.new h.new media.new psi_e.new psi_h.new tables.new poles.new aux.new ids.new) ≡ rewind_on_block save.now b.old (stores e.old h.old media.old psi_e.old psi_h.old tables.old poles.old aux.old ids.old) }
    ensures honest { Silently b.old b.new (λ s. s ≡ stores e.old h.old media.old psi_e.old psi_h.old tables.old poles.old aux.old ids.old) (λ s. stores e.new h.new media.new psi_e.new psi_h.new tables.new poles.new aux.new ids.new) (rewinding save.now (record { block = long b.old; stores = lengths_of (stores e.old h.old media.old psi_e.old psi_h.old tables.old poles.old aux.old ids.old) })) result }
{
    code_of(&on_block::saving::rewind(b, save, e, h, media, psi_e, psi_h, tables, poles, aux, ids))
}
