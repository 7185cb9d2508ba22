// A program's steps, the fields cleared, a reading. Each function leaves a run of demand 3, as those of `program` do.
#![tactic(auto)]

ghost use Rattle.std.specs.Prelude.{length};
ghost use Rattle.grid.specs.Stores.{stores};
ghost use Rattle.study.specs.History.{doing};
ghost use Rattle.study.specs.World.{step, run, reset_fields, total_energy};
ghost use Rattle.runs.specs.Runs.{GoesOn};

use api::{memory, readings, steps, studies};

pub fn step(
    b: &mut [u8],
    sample: f64,
    e: &mut [f64],
    h: &mut [f64],
    media: &[f64],
    psi_e: &mut [f64],
    psi_h: &mut [f64],
    tables: &[f64],
    poles: &mut [f64],
    aux: &mut [f64],
    ids: &[u32],
) -> u32
    ensures { GoesOn (doing (step sample)) b.old (stores e.old h.old media.now psi_e.old psi_h.old tables.now poles.old aux.old ids.now) b.new (stores e.new h.new media.now psi_e.new psi_h.new tables.now poles.new aux.new ids.now) }
{
    let n = steps::cichowiej_step(
        b, sample, e, h, media, psi_e, psi_h, tables, poles, aux, ids,
    );
    memory::hold(b, e, h, media, psi_e, psi_h, tables, poles, aux, ids);
    n
}

pub fn run(
    b: &mut [u8],
    samples: &[f64],
    e: &mut [f64],
    h: &mut [f64],
    media: &[f64],
    psi_e: &mut [f64],
    psi_h: &mut [f64],
    tables: &[f64],
    poles: &mut [f64],
    aux: &mut [f64],
    ids: &[u32],
) -> u32
    ensures { GoesOn (doing (run samples.now)) b.old (stores e.old h.old media.now psi_e.old psi_h.old tables.now poles.old aux.old ids.now) b.new (stores e.new h.new media.now psi_e.new psi_h.new tables.now poles.new aux.new ids.now) }
{
    let n = steps::cichowiej_run(
        b, samples, e, h, media, psi_e, psi_h, tables, poles, aux, ids,
    );
    memory::hold(b, e, h, media, psi_e, psi_h, tables, poles, aux, ids);
    n
}

pub fn reset_fields(
    b: &mut [u8],
    e: &mut [f64],
    h: &mut [f64],
    media: &[f64],
    psi_e: &mut [f64],
    psi_h: &mut [f64],
    tables: &[f64],
    poles: &mut [f64],
    aux: &[f64],
    ids: &[u32],
) -> u32
    ensures { GoesOn (doing (reset_fields)) b.old (stores e.old h.old media.now psi_e.old psi_h.old tables.now poles.old aux.now ids.now) b.new (stores e.new h.new media.now psi_e.new psi_h.new tables.now poles.new aux.now ids.now) }
{
    let n = studies::cichowiej_reset_fields(b, e, h, psi_e, psi_h, poles);
    memory::hold(b, e, h, media, psi_e, psi_h, tables, poles, aux, ids);
    n
}

pub fn total_energy(
    b: &[u8],
    e: &[f64],
    h: &[f64],
    media: &[f64],
    psi_e: &[f64],
    psi_h: &[f64],
    tables: &[f64],
    poles: &[f64],
    aux: &[f64],
    ids: &[u32],
    energy: &mut [f64],
) -> u32
    ensures { GoesOn (doing (total_energy (length energy.old))) b.now (stores e.now h.now media.now psi_e.now psi_h.now tables.now poles.now aux.now ids.now) b.now (stores e.now h.now media.now psi_e.now psi_h.now tables.now poles.now aux.now ids.now) }
{
    let n = readings::cichowiej_total_energy(b, e, h, media, energy);
    memory::hold(b, e, h, media, psi_e, psi_h, tables, poles, aux, ids);
    n
}
