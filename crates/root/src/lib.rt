// IEEE 754's squareRoot on f64 by whole numbers, the constants of vacuum, and the Courant numbers.
#![tactic(auto)]

pub mod vacuum;

ghost use Rattle.std.specs.Prelude.{◌≡◌, ◌*◌, ◌^◌, ◌<◌, T};
ghost use Rattle.std.specs.Float.Ieee.Positive.{positive};
ghost use Rattle.root.specs.Root.{NearestRoot, Rooted};
ghost use Rattle.root.specs.Inner.Steps.{Floor, Scale, units_of};
ghost use Rattle.root.specs.Courant.{courant_root, courant_number, courant_limit, stable};

use std::f64::consts::PI;

// 2^52: the weight of a double's exponent field, and of its leading digit.
const LEAD: u64 = 4503599627370496;

// Vacuum permittivity (F/m) and permeability (H/m), and the speed of light (m/s) that they give:
// the contracts in vacuum.rt say which double each one is.
pub const EPS0: f64 = 8.854187817e-12;

pub const MU0: f64 = 4.0 * PI * 1e-7;

pub const C0: f64 = 299792458.0105029;

// The same by CODATA 2018, where the speed of light is the stated one.
pub const EPS0_2019: f64 = 8.8541878128e-12;

pub const MU0_2019: f64 = 1.25663706212e-6;

pub const C0_2019: f64 = 299792458.0;

// A whole number m * 2^k.
#[derive(Clone, Copy)]
struct Scaled {
    pub m: u64,
    pub k: u64,
}

// Cell sizes and the time step.
#[derive(Clone, Copy)]
pub struct Spacings {
    pub dx: f64,
    pub dy: f64,
    pub dz: f64,
    pub dt: f64,
}

// The root of a * 2^54, cut to a whole number, one binary digit at a time: q is the root of what
// was taken so far, r what is left over, and w holds the digits still to be taken, two at a time.
fn digits(a: u64) -> u64
    requires { a < 2 ^ 54 }
    ensures { Floor (a * 2 ^ 54) result }
{
    let mut q: u64 = 0;
    let mut r: u64 = 0;
    let mut w: u64 = a;
    for _ in 0..54u64 {
        let s = r * 4 + w / LEAD;
        let t = q * 4 + 1;
        w = w % LEAD * 4;
        if t <= s {
            r = s - t;
            q = q * 2 + 1;
        } else {
            r = s;
            q = q * 2;
        }
    }
    q
}

// A positive double with 53 digits, m * 2^k of 2^-1126, from its exponent field and its low digits.
fn scale_up(field: u64, low: u64) -> Scaled
    requires { (field < 2047) × (low < 2 ^ 52) × (0 < units_of field low) }
    ensures { Scale (units_of field low) result.m result.k }
{
    if 0 < field {
        return Scaled {
            m: LEAD + low,
            k: field + 51,
        };
    }
    let shift = low.leading_zeros() - 11;
    Scaled {
        m: low << shift,
        k: 52 - shift as u64,
    }
}

// The root with one digit to spare, rounded to 53 by that digit. An odd exponent lends the
// radicand a factor of two.
fn of_positive(x: f64) -> f64
    requires { T (positive x) }
    ensures { NearestRoot x result }
{
    let b = f64::to_bits(x);
    let n = scale_up(b / LEAD, b % LEAD);
    let q = digits(n.m * (1 + n.k % 2));
    f64::from_bits((n.k / 2 + 485) * LEAD + (q + 1) / 2)
}

pub fn root(x: f64) -> f64
    ensures { Rooted x result }
{
    if x.is_nan() || x == 0.0 || x == f64::INFINITY {
        return x;
    }
    if x < 0.0 {
        return f64::NAN;
    }
    of_positive(x)
}

fn courant_root(s: Spacings) -> f64
    ensures { result ≡ courant_root s }
{
    root(1.0 / (s.dx * s.dx) + 1.0 / (s.dy * s.dy) + 1.0 / (s.dz * s.dz))
}

// The Courant number of a grid: at most 1 where a run is stable.
pub fn cfl_number(c0: f64, s: Spacings) -> f64
    ensures { result ≡ courant_number c0 s }
{
    c0 * s.dt * courant_root(s)
}

// The time step at which the Courant number reaches 1.
pub fn max_stable_dt(c0: f64, s: Spacings) -> f64
    ensures { result ≡ courant_limit c0 s }
{
    1.0 / (c0 * courant_root(s))
}

pub fn is_stable(c0: f64, s: Spacings) -> bool
    ensures { result ≡ stable c0 s }
{
    cfl_number(c0, s) <= 1.0
}
