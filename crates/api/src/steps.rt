// One step, and many.
ghost use Rattle.std.specs.Prelude.{◌≡◌};
ghost use Rattle.grid.specs.Vacuum.{eps_of, mu_of, light_of};
ghost use Rattle.grid.specs.Stores.{stores};
ghost use Rattle.step.specs.Step.{step_call};
ghost use Rattle.run.specs.Run.{run_call};
ghost use Rattle.calls.specs.Blocks.{sent, clock_on_block};
ghost use Rattle.study.specs.History.{doing};
ghost use Rattle.study.specs.World.{step, run};
ghost use Rattle.study.specs.Calls.{Silently};

use refusals::code_of;

pub fn cichowiej_step(
    b: &mut [u8],
    sample: f64,
    e: &mut [f64],
    h: &mut [f64],
    media: &[f64],
    psi_e: &mut [f64],
    psi_h: &mut [f64],
    tables: &[f64],
    poles: &mut [f64],
    aux: &mut [f64],
    ids: &[u32],
) -> u32
    ensures ids_after { sent result b.new (stores e.new h.new media.now psi_e.new psi_h.new tables.now poles.new aux.new ids.now) ≡ clock_on_block (λ r. step_call (eps_of r) (mu_of r) (light_of r) r sample (stores e.old h.old media.now psi_e.old psi_h.old tables.now poles.old aux.old ids.now)) b.old (stores e.old h.old media.now psi_e.old psi_h.old tables.now poles.old aux.old ids.now) }
    ensures honest { Silently b.old b.new (λ s. s ≡ stores e.old h.old media.now psi_e.old psi_h.old tables.now poles.old aux.old ids.now) (λ s. stores e.new h.new media.now psi_e.new psi_h.new tables.now poles.new aux.new ids.now) (doing (step sample)) result }
{
    code_of(&on_block::steps::step(
        b, sample, e, h, media, psi_e, psi_h, tables, poles, aux, ids,
    ))
}

pub fn cichowiej_run(
    b: &mut [u8],
    samples: &[f64],
    e: &mut [f64],
    h: &mut [f64],
    media: &[f64],
    psi_e: &mut [f64],
    psi_h: &mut [f64],
    tables: &[f64],
    poles: &mut [f64],
    aux: &mut [f64],
    ids: &[u32],
) -> u32
    ensures ids_after { sent result b.new (stores e.new h.new media.now psi_e.new psi_h.new tables.now poles.new aux.new ids.now) ≡ clock_on_block (λ r. run_call (eps_of r) (mu_of r) (light_of r) r samples.now (stores e.old h.old media.now psi_e.old psi_h.old tables.now poles.old aux.old ids.now)) b.old (stores e.old h.old media.now psi_e.old psi_h.old tables.now poles.old aux.old ids.now) }
    ensures honest { Silently b.old b.new (λ s. s ≡ stores e.old h.old media.now psi_e.old psi_h.old tables.now poles.old aux.old ids.now) (λ s. stores e.new h.new media.now psi_e.new psi_h.new tables.now poles.new aux.new ids.now) (doing (run samples.now)) result }
{
    code_of(&on_block::steps::run(
        b, samples, e, h, media, psi_e, psi_h, tables, poles, aux, ids,
    ))
}
