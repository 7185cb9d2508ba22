// Constants and bare arithmetic, which refuse nothing; and a pole's coefficients, which do.
ghost use Rattle.std.specs.Prelude.{◌≡◌};
ghost use Rattle.root.specs.Root.{Rooted};
ghost use Rattle.root.specs.Constants as vacuum;
ghost use Rattle.root.specs.Courant.{courant_number, courant_limit, stable};
ghost use Rattle.boundary.specs.Lossy.{power, wall_sigma, stronger};
ghost use Rattle.calls.specs.Blocks.{readout};
ghost use Rattle.calls.specs.Poles.{coeffs_call};

use boundary::lossy;
use calls::poles;
use refusals::code_of;
use root::Spacings;

// ---- constants of vacuum

pub fn cichowiej_eps0() -> f64
    ensures { result ≡ vacuum.eps0 }
{
    root::vacuum::eps0()
}

pub fn cichowiej_mu0() -> f64
    ensures { result ≡ vacuum.mu0 }
{
    root::vacuum::mu0()
}

pub fn cichowiej_c0() -> f64
    ensures { result ≡ vacuum.c0 }
{
    root::vacuum::c0()
}

// the same by CODATA 2018

pub fn cichowiej_eps0_2019() -> f64
    ensures { result ≡ vacuum.eps02019 }
{
    root::vacuum::eps0_2019()
}

pub fn cichowiej_mu0_2019() -> f64
    ensures { result ≡ vacuum.mu02019 }
{
    root::vacuum::mu0_2019()
}

pub fn cichowiej_c0_2019() -> f64
    ensures { result ≡ vacuum.c02019 }
{
    root::vacuum::c0_2019()
}

// ---- the square root and the Courant numbers

pub fn cichowiej_root(x: f64) -> f64
    ensures { Rooted x result }
{
    root::root(x)
}

pub fn cichowiej_cfl_number(c0: f64, dx: f64, dy: f64, dz: f64, dt: f64) -> f64
    ensures { result ≡ courant_number c0 (record { dx = dx; dy = dy; dz = dz; dt = dt }) }
{
    root::cfl_number(c0, Spacings { dx, dy, dz, dt })
}

pub fn cichowiej_max_stable_dt(c0: f64, dx: f64, dy: f64, dz: f64, dt: f64) -> f64
    ensures { result ≡ courant_limit c0 (record { dx = dx; dy = dy; dz = dz; dt = dt }) }
{
    root::max_stable_dt(c0, Spacings { dx, dy, dz, dt })
}

pub fn cichowiej_is_stable(c0: f64, dx: f64, dy: f64, dz: f64, dt: f64) -> bool
    ensures { result ≡ stable c0 (record { dx = dx; dy = dy; dz = dz; dt = dt }) }
{
    root::is_stable(c0, Spacings { dx, dy, dz, dt })
}

// ---- the coefficients of a pole

// Writes a1, a2, a3 into the room; a refusal writes nothing.
pub fn cichowiej_ade_coeffs(
    tag: u32,
    first: f64,
    second: f64,
    third: f64,
    eps0: f64,
    dt: f64,
    out: &mut [f64],
) -> u32
    ensures { readout result out.new ≡ coeffs_call eps0 dt tag first second third out.old }
{
    code_of(&poles::put_coeffs(tag, first, second, third, eps0, dt, out))
}

// ---- the lossy edge's conductivity

pub fn cichowiej_powi(u: f64, n: usize) -> f64
    ensures { result ≡ power u n }
{
    lossy::powi(u, n)
}

// At d cells from a wall whose layer is t cells thick.
pub fn cichowiej_wall_sigma(t: usize, order: usize, sigma_max: f64, d: usize) -> f64
    ensures { result ≡ wall_sigma t order sigma_max d }
{
    lossy::wall_sigma(t, order, sigma_max, d)
}

// s, unless v is larger.
pub fn cichowiej_stronger(s: f64, v: f64) -> f64
    ensures { result ≡ stronger s v }
{
    lossy::stronger_of(s, v)
}
