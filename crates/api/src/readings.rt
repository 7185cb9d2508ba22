// What is read from the fields. The block is left.
ghost use Rattle.std.specs.Prelude.{◌≡◌, length};
ghost use Rattle.grid.specs.Vacuum.{eps_of, mu_of};
ghost use Rattle.root.specs.Rounded.{zero_f};
ghost use Rattle.fields.specs.Fields.{energy_call, plane_call};
ghost use Rattle.calls.specs.Blocks.{readout, read_block, answered, answering};
ghost use Rattle.study.specs.History.{doing};
ghost use Rattle.study.specs.World.{total_energy, plane_reading};
ghost use Rattle.study.specs.Calls.{Reading};

use refusals::code_of;

pub fn cichowiej_total_energy(
    b: &[u8],
    e: &[f64],
    h: &[f64],
    media: &[f64],
    energy: &mut [f64],
) -> u32
    ensures energy_after { readout result energy.new ≡ read_block (λ r. answering (energy_call (eps_of r) (mu_of r) r e.now h.now media.now) energy.old) b.now (answered zero_f energy.old) }
    ensures honest { Reading b.now b.now (λ s. (s.electric ≡ e.now) × (s.magnetic ≡ h.now) × (s.media ≡ media.now)) (doing (total_energy (length energy.old))) result energy.old energy.new }
{
    code_of(&read_block::total_energy(b, e, h, media, energy))
}

pub fn cichowiej_plane_reading(b: &[u8], k: usize, e: &[f64], h: &[f64], reading: &mut [f64]) -> u32
    ensures reading_after { readout result reading.new ≡ read_block (λ r. answering (plane_call r k e.now h.now) reading.old) b.now (answered zero_f reading.old) }
    ensures honest { Reading b.now b.now (λ s. (s.electric ≡ e.now) × (s.magnetic ≡ h.now)) (doing (plane_reading k (length reading.old))) result reading.old reading.new }
{
    code_of(&read_block::plane_reading(b, k, e, h, reading))
}
