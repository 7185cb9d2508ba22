// The step with the run clock lent to it and moved on there. Nothing is computed here: `step::step`, which takes the clock by value, does the work.
#![tactic(auto)]

ghost use Rattle.std.specs.Prelude.{◌≡◌};
ghost use Rattle.refusals.specs.Refusals.{code, value_or};
ghost use Rattle.grid.specs.Edited.{with_clock};
ghost use Rattle.grid.specs.Stores.{stores, outcome};
ghost use Rattle.step.specs.Step.{step_call};

use grid::{Clock, Record};
use refusals::Refusal;
use root::vacuum::Vacuum;

// A refused step leaves the clock. The record's own clock is not looked at.
pub fn step(
    clock: &mut Clock,
    vacuum: Vacuum,
    r: Record,
    sample: f64,
    e: &mut [f64],
    h: &mut [f64],
    media: &[f64],
    psi_e: &mut [f64],
    psi_h: &mut [f64],
    tables: &[f64],
    poles: &mut [f64],
    aux: &mut [f64],
    ids: &[u32],
) -> Result<(), Refusal>
    ensures { outcome (code result) (with_clock r clock.new) (stores e.new h.new media.now psi_e.new psi_h.new tables.now poles.new aux.new ids.now) ≡ step_call vacuum.eps0 vacuum.mu0 vacuum.c0 (with_clock r clock.old) sample (stores e.old h.old media.now psi_e.old psi_h.old tables.now poles.old aux.old ids.now) }
{
    let moved = step::step(
        *clock, vacuum, r, sample, e, h, media, psi_e, psi_h, tables, poles, aux, ids,
    )?;
    *clock = moved;
    Ok(())
}

// The step of a study, whose clock is in the record.
pub fn step_record(
    vacuum: Vacuum,
    r: Record,
    sample: f64,
    e: &mut [f64],
    h: &mut [f64],
    media: &[f64],
    psi_e: &mut [f64],
    psi_h: &mut [f64],
    tables: &[f64],
    poles: &mut [f64],
    aux: &mut [f64],
    ids: &[u32],
) -> Result<Clock, Refusal>
    ensures { outcome (code result) (with_clock r (value_or r.clock result)) (stores e.new h.new media.now psi_e.new psi_h.new tables.now poles.new aux.new ids.now) ≡ step_call vacuum.eps0 vacuum.mu0 vacuum.c0 r sample (stores e.old h.old media.now psi_e.old psi_h.old tables.now poles.old aux.old ids.now) }
{
    let mut clock = r.clock;
    step(
        &mut clock, vacuum, r, sample, e, h, media, psi_e, psi_h, tables, poles, aux, ids,
    )?;
    Ok(clock)
}
