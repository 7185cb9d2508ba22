// Many steps of a study in one call.
#![tactic(auto)]

ghost use Rattle.std.specs.Prelude.{◌≡◌, ◌+◌, ◌≤◌, length};
ghost use Rattle.refusals.specs.Refusals.{code, value_or};
ghost use Rattle.grid.specs.Edited.{with_clock};
ghost use Rattle.grid.specs.Stores.{stores, outcome};
ghost use Rattle.step.specs.Step.{last_step};
ghost use Rattle.step.specs.Inner.Ready.{StepReady};
ghost use Rattle.run.specs.Run.{ran, run_call};

use grid::{Clock, Record, stores};
use refusals::Refusal;
use root::vacuum::Vacuum;

// The steps of a study without fault, and the clock after them.
fn advance_all(
    vacuum: Vacuum,
    r: Record,
    samples: &[f64],
    e: &mut [f64],
    h: &mut [f64],
    media: &[f64],
    psi_e: &mut [f64],
    psi_h: &mut [f64],
    tables: &[f64],
    poles: &mut [f64],
    aux: &mut [f64],
    ids: &[u32],
) -> Clock
    requires step_ready { StepReady r (stores e.old h.old media.now psi_e.old psi_h.old tables.now poles.old aux.old ids.now) }
    requires samples_bound { r.clock.steps + length samples.now ≤ last_step }
    ensures { outcome 0 (with_clock r result) (stores e.new h.new media.now psi_e.new psi_h.new tables.now poles.new aux.new ids.now) ≡ ran vacuum.eps0 vacuum.mu0 vacuum.c0 r samples.now (stores e.old h.old media.now psi_e.old psi_h.old tables.now poles.old aux.old ids.now) }
{
    let mut q = r;
    for x in samples {
        q.clock = step::advance(
            vacuum, q, *x, e, h, media, psi_e, psi_h, tables, poles, aux, ids,
        );
    }
    q.clock
}

// A step for each sample.
#[tactic(auto, unfolding(crate::specs::Run::run_call), using(grid::proofs::Settled::refused_with, grid::proofs::Settled::taken_up, refusals::proofs::Numbers::stands_in))]
pub fn run(
    vacuum: Vacuum,
    r: Record,
    samples: &[f64],
    e: &mut [f64],
    h: &mut [f64],
    media: &[f64],
    psi_e: &mut [f64],
    psi_h: &mut [f64],
    tables: &[f64],
    poles: &mut [f64],
    aux: &mut [f64],
    ids: &[u32],
) -> Result<Clock, Refusal>
    ensures { outcome (code result) (with_clock r (value_or r.clock result)) (stores e.new h.new media.now psi_e.new psi_h.new tables.now poles.new aux.new ids.now) ≡ run_call vacuum.eps0 vacuum.mu0 vacuum.c0 r samples.now (stores e.old h.old media.now psi_e.old psi_h.old tables.now poles.old aux.old ids.now) }
{
    let lent = stores::lengths_of(e, h, media, psi_e, psi_h, tables, poles, aux, ids);
    due::step_fault(r, lent, ids, samples.len())?;
    let moved = advance_all(
        vacuum, r, samples, e, h, media, psi_e, psi_h, tables, poles, aux, ids,
    );
    Ok(moved)
}
