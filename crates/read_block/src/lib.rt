// What is read from the fields, on the record that a block holds. The block is lent to be read.
#![tactic(auto)]

ghost use Rattle.std.specs.Prelude.{◌≡◌};
ghost use Rattle.refusals.specs.Refusals.{code};
ghost use Rattle.grid.specs.Vacuum.{eps_of, mu_of};
ghost use Rattle.root.specs.Rounded.{zero_f};
ghost use Rattle.fields.specs.Fields.{energy_call, plane_call};
ghost use Rattle.calls.specs.Blocks.{readout, read_block, answered, answering};

use calls::blocks;
use fields::readings;
use refusals::Refusal;

pub fn total_energy(
    b: &[u8],
    e: &[f64],
    h: &[f64],
    media: &[f64],
    energy: &mut [f64],
) -> Result<(), Refusal>
    ensures { readout (code result) energy.new ≡ read_block (λ r. answering (energy_call (eps_of r) (mu_of r) r e.now h.now media.now) energy.old) b.now (answered zero_f energy.old) }
{
    blocks::answer(energy, 0.0);
    let r = blocks::record_of(b)?;
    let value = readings::total_energy(r, e, h, media)?;
    blocks::answer(energy, value);
    Ok(())
}

pub fn plane_reading(
    b: &[u8],
    k: usize,
    e: &[f64],
    h: &[f64],
    reading: &mut [f64],
) -> Result<(), Refusal>
    ensures { readout (code result) reading.new ≡ read_block (λ r. answering (plane_call r k e.now h.now) reading.old) b.now (answered zero_f reading.old) }
{
    blocks::answer(reading, 0.0);
    let r = blocks::record_of(b)?;
    let value = readings::plane_reading(r, k, e, h)?;
    blocks::answer(reading, value);
    Ok(())
}
