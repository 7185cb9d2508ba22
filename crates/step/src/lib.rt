// One step of a study: `Tfsf::step` with a region, `update_h_field` and then `update_e_field` without.
#![tactic(auto)]

ghost use Rattle.std.specs.Prelude.{◌≡◌, ◌<◌};
ghost use Rattle.refusals.specs.Refusals.{code, value_or};
ghost use Rattle.grid.specs.Edited.{with_clock};
ghost use Rattle.grid.specs.Stores.{stores, outcome};
ghost use Rattle.step.specs.Step.{stepped, ticked, last_step, step_call};
ghost use Rattle.step.specs.Inner.Ready.{StepReady};

use grid::{Clock, Record, stores};
use refusals::Refusal;
use root::vacuum::Vacuum;

// A step of a study without fault, and the clock after it.
pub fn advance(
    vacuum: Vacuum,
    r: Record,
    sample: f64,
    e: &mut [f64],
    h: &mut [f64],
    media: &[f64],
    psi_e: &mut [f64],
    psi_h: &mut [f64],
    tables: &[f64],
    poles: &mut [f64],
    aux: &mut [f64],
    ids: &[u32],
) -> Clock
    requires step_ready { StepReady r (stores e.old h.old media.now psi_e.old psi_h.old tables.now poles.old aux.old ids.now) }
    requires steps_lt_last_step { r.clock.steps < last_step }
    ensures value { result ≡ (ticked r).clock }
    ensures ids_after { stores e.new h.new media.now psi_e.new psi_h.new tables.now poles.new aux.new ids.now ≡ stepped vacuum.eps0 vacuum.mu0 vacuum.c0 r sample (stores e.old h.old media.now psi_e.old psi_h.old tables.now poles.old aux.old ids.now) }
{
    halves::magnetic_half(vacuum.mu0, r, e, h, media, psi_h, tables, aux);
    halves::electric_half(
        vacuum.eps0,
        vacuum.c0,
        r,
        sample,
        e,
        h,
        media,
        psi_e,
        tables,
        poles,
        aux,
        ids,
    );
    due::tick(r)
}

// Moves a study on by one step, from the clock that is handed in beside the record. The sample is what the wave's source gives at time + dt.
#[tactic(auto, unfolding(crate::specs::Step::step_call), using(grid::proofs::Settled::refused_with, grid::proofs::Settled::taken_up, refusals::proofs::Numbers::stands_in))]
pub fn step(
    clock: Clock,
    vacuum: Vacuum,
    r: Record,
    sample: f64,
    e: &mut [f64],
    h: &mut [f64],
    media: &[f64],
    psi_e: &mut [f64],
    psi_h: &mut [f64],
    tables: &[f64],
    poles: &mut [f64],
    aux: &mut [f64],
    ids: &[u32],
) -> Result<Clock, Refusal>
    ensures { outcome (code result) (with_clock r (value_or clock result)) (stores e.new h.new media.now psi_e.new psi_h.new tables.now poles.new aux.new ids.now) ≡ step_call vacuum.eps0 vacuum.mu0 vacuum.c0 (with_clock r clock) sample (stores e.old h.old media.now psi_e.old psi_h.old tables.now poles.old aux.old ids.now) }
{
    let q = Record { clock, ..r };
    let lent = stores::lengths_of(e, h, media, psi_e, psi_h, tables, poles, aux, ids);
    due::step_fault(q, lent, ids, 1)?;
    let moved = advance(
        vacuum, q, sample, e, h, media, psi_e, psi_h, tables, poles, aux, ids,
    );
    Ok(moved)
}
