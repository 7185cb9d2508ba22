// The save: eleven records, written (`puts`), judged (`judge`) and read.
#![tactic(auto)]

pub mod gets;

ghost use Rattle.std.specs.Prelude.{◌≡◌};
ghost use Rattle.refusals.specs.Refusals.{code, value_or};
ghost use Rattle.grid.specs.declared.Record.{Record};
ghost use Rattle.grid.specs.Stores.{stores, outcome};
ghost use Rattle.grid.specs.Inner.Sound.{Sound};
ghost use Rattle.format.specs.Save.{save_length, length_call, save_call};
ghost use Rattle.format.specs.Rewind.{rewind_call};

use grid::{Record, fault, stores};
use refusals::{Refusal, require};

#[tactic(auto, unfolding(format::specs::Save::save_length))]
fn length_of(r: Record) -> usize
    requires { Sound r }
    ensures { result ≡ save_length r }
{
    let n = r.nx * r.ny * r.nz;
    908 + 125 * r.material_count
        + 196 * n
        + 48 * (r.pole_slots * n)
        + 48 * (r.nx + r.ny + r.nz)
        + 16 * r.nz
}

// The bytes that the record's save takes.
pub fn save_length(r: Record) -> Result<usize, Refusal>
    ensures { outcome (code result) r (value_or 0 result) ≡ length_call r }
{
    fault::fault_of(r)?;
    Ok(length_of(r))
}

// Writes the study's save to the front of the lent bytes.
pub fn save<'a>(
    r: Record,
    e: &[f64],
    h: &[f64],
    media: &[f64],
    psi_e: &'a [f64],
    psi_h: &'a [f64],
    tables: &[f64],
    poles: &[f64],
    aux: &[f64],
    ids: &[u32],
    out: &mut [u8],
) -> Result<(), Refusal>
    ensures { outcome (code result) r out.new ≡ save_call r (stores e.now h.now media.now psi_e.now psi_h.now tables.now poles.now aux.now ids.now) out.old }
{
    let lent = stores::lengths_of(e, h, media, psi_e, psi_h, tables, poles, aux, ids);
    stores::fault_with(r, lent)?;
    require(length_of(r) <= out.len(), Refusal::NoRoom)?;
    puts::put_save(out, r, e, h, media, psi_e, psi_h, tables, poles, aux, ids);
    Ok(())
}

// Takes up the study that the lent bytes say. A standing record is not judged, and stays where they are refused.
pub fn rewind(
    b: &[u8],
    e: &mut [f64],
    h: &mut [f64],
    media: &mut [f64],
    psi_e: &mut [f64],
    psi_h: &mut [f64],
    tables: &mut [f64],
    poles: &mut [f64],
    aux: &mut [f64],
    ids: &mut [u32],
) -> Result<Record, Refusal>
    ensures { (standing : Record) → outcome (code result) (value_or standing result) (stores e.new h.new media.new psi_e.new psi_h.new tables.new poles.new aux.new ids.new) ≡ rewind_call standing (stores e.old h.old media.old psi_e.old psi_h.old tables.old poles.old aux.old ids.old) b.now }
{
    judge::bytes_fault(b)?;
    let r = gets::get_record(b);
    let lent = stores::lengths_of(e, h, media, psi_e, psi_h, tables, poles, aux, ids);
    stores::fault_with(r, lent)?;
    let at = gets::stores_from(b, r.material_count);
    gets::get_stores(b, at, e, h, media, psi_e, psi_h, tables, poles, aux, ids);
    Ok(r)
}
