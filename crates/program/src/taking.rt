// A save, and a rewind to one.
ghost use Rattle.std.specs.Prelude.{◌≡◌, length, take};
ghost use Rattle.grid.specs.Stores.{stores, lengths_of};
ghost use Rattle.block.specs.Block.{block_record};
ghost use Rattle.format.specs.Save.{save_length};
ghost use Rattle.runs.specs.Runs.{Saves, Rewinds};

use api::{memory, saving};

pub fn save<'a>(
    b: &[u8],
    e: &[f64],
    h: &[f64],
    media: &[f64],
    psi_e: &'a [f64],
    psi_h: &'a [f64],
    tables: &[f64],
    poles: &[f64],
    aux: &[f64],
    ids: &[u32],
    out: &mut [u8],
) -> u32
    ensures { Saves result (length out.old) (take (save_length (block_record b.now)) out.new) b.now (stores e.now h.now media.now psi_e.now psi_h.now tables.now poles.now aux.now ids.now) }
{
    let n = saving::cichowiej_save(b, e, h, media, psi_e, psi_h, tables, poles, aux, ids, out);
    memory::hold(b, e, h, media, psi_e, psi_h, tables, poles, aux, ids);
    n
}

pub fn rewind(
    b: &mut [u8],
    save: &[u8],
    e: &mut [f64],
    h: &mut [f64],
    media: &mut [f64],
    psi_e: &mut [f64],
    psi_h: &mut [f64],
    tables: &mut [f64],
    poles: &mut [f64],
    aux: &mut [f64],
    ids: &mut [u32],
) -> u32
    ensures { Rewinds save.now (record { block = length b.old; stores = lengths_of (stores e.old h.old media.old psi_e.old psi_h.old tables.old poles.old aux.old ids.old) }) b.old (stores e.old h.old media.old psi_e.old psi_h.old tables.old poles.old aux.old ids.old) b.new (stores e.new h.new media.new psi_e.new psi_h.new tables.new poles.new aux.new ids.new) }
{
    let n = saving::cichowiej_rewind(b, save, e, h, media, psi_e, psi_h, tables, poles, aux, ids);
    memory::hold(b, e, h, media, psi_e, psi_h, tables, poles, aux, ids);
    n
}
