// One step, and many.
ghost use Rattle.std.specs.Prelude.{◌≡◌};
ghost use Rattle.refusals.specs.Refusals.{code};
ghost use Rattle.grid.specs.Vacuum.{eps_of, mu_of, light_of};
ghost use Rattle.grid.specs.Stores.{stores};
ghost use Rattle.step.specs.Step.{step_call};
ghost use Rattle.run.specs.Run.{run_call};
ghost use Rattle.calls.specs.Blocks.{sent, clock_on_block};

use calls::blocks;
use refusals::Refusal;
use root::vacuum;

pub fn step(
    b: &mut [u8],
    sample: f64,
    e: &mut [f64],
    h: &mut [f64],
    media: &[f64],
    psi_e: &mut [f64],
    psi_h: &mut [f64],
    tables: &[f64],
    poles: &mut [f64],
    aux: &mut [f64],
    ids: &[u32],
) -> Result<(), Refusal>
    ensures { sent (code result) b.new (stores e.new h.new media.now psi_e.new psi_h.new tables.now poles.new aux.new ids.now) ≡ clock_on_block (λ r. step_call (eps_of r) (mu_of r) (light_of r) r sample (stores e.old h.old media.now psi_e.old psi_h.old tables.now poles.old aux.old ids.now)) b.old (stores e.old h.old media.now psi_e.old psi_h.old tables.now poles.old aux.old ids.now) }
{
    let r = blocks::record_of(b)?;
    let v = vacuum::chosen(r.constants);
    let moved = clock::step_record(
        v, r, sample, e, h, media, psi_e, psi_h, tables, poles, aux, ids,
    );
    blocks::keep_clock(b, moved)
}

pub fn run(
    b: &mut [u8],
    samples: &[f64],
    e: &mut [f64],
    h: &mut [f64],
    media: &[f64],
    psi_e: &mut [f64],
    psi_h: &mut [f64],
    tables: &[f64],
    poles: &mut [f64],
    aux: &mut [f64],
    ids: &[u32],
) -> Result<(), Refusal>
    ensures { sent (code result) b.new (stores e.new h.new media.now psi_e.new psi_h.new tables.now poles.new aux.new ids.now) ≡ clock_on_block (λ r. run_call (eps_of r) (mu_of r) (light_of r) r samples.now (stores e.old h.old media.now psi_e.old psi_h.old tables.now poles.old aux.old ids.now)) b.old (stores e.old h.old media.now psi_e.old psi_h.old tables.now poles.old aux.old ids.now) }
{
    let r = blocks::record_of(b)?;
    let v = vacuum::chosen(r.constants);
    let moved = run::run(
        v, r, samples, e, h, media, psi_e, psi_h, tables, poles, aux, ids,
    );
    blocks::keep_clock(b, moved)
}
