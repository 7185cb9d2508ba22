// The coefficients of a pole, asked for by its tag and three numbers, written into a lent room.
ghost use Rattle.std.specs.Prelude.{◌≡◌};
ghost use Rattle.refusals.specs.Refusals.{code};
ghost use Rattle.calls.specs.Blocks.{readout};
ghost use Rattle.calls.specs.Poles.{coeffs_call};

use refusals::{Refusal, require};

pub fn put_coeffs(
    tag: u32,
    x: f64,
    y: f64,
    z: f64,
    eps0: f64,
    dt: f64,
    out: &mut [f64],
) -> Result<(), Refusal>
    ensures { readout (code result) out.new ≡ coeffs_call eps0 dt tag x y z out.old }
{
    let t = tag as u64;
    require(out.len() == 3, Refusal::BadStore)?;
    require(shapes::is_tag(t), Refusal::BadStudy)?;
    let turned = heads::pole_of(t, x, y, z).ade_coeffs(eps0, dt);
    turned.stepped?;
    let c = turned.coeffs;
    out[0] = c.a1;
    out[1] = c.a2;
    out[2] = c.a3;
    Ok(())
}
