// The auxiliary line's two half steps: ex stands at 0..n of the slice, hy at n..2n.
ghost use Rattle.std.specs.Prelude.{◌≡◌, ◌+◌, ◌-◌};
ghost use Rattle.tfsf.specs.Line.{leapfrog, line_factor, hy_inner, ex_inner, mur_end, mur_factor, line_h, line_e};
ghost use Rattle.tfsf.specs.Inner.Spans.{Spanned, Sized};

use root::Spacings;

// The run-up below k = 0 and above the last plane.
pub const PAD: usize = 24;

pub const SOURCE_INDEX: usize = 6;

// `unit` is the vacuum's permeability for hy, its permittivity for ex.
fn line_factor(unit: f64, s: Spacings) -> f64
    ensures { result ≡ line_factor unit s }
{
    s.dt / (unit * s.dz)
}

fn leapfrog(factor: f64, own: f64, above: f64, below: f64) -> f64
    ensures { result ≡ leapfrog factor own above below }
{
    own - factor * (above - below)
}

fn mur_factor(c0: f64, s: Spacings) -> f64
    ensures { result ≡ mur_factor c0 s }
{
    (c0 * s.dt - s.dz) / (c0 * s.dt + s.dz)
}

fn mur_end(factor: f64, own: f64, old: f64, new: f64) -> f64
    ensures { result ≡ mur_end factor own old new }
{
    old + factor * (new - own)
}

fn move_h(factor: f64, n: usize, line: &mut [f64])
    requires { Sized n line.old }
    ensures { Spanned (λ q. hy_inner factor n line.old (q - n)) n (n + (n - 1)) line.old line.new }
{
    for a in 0..n - 1 {
        line[n + a] = leapfrog(factor, line[n + a], line[a + 1], line[a]);
    }
}

fn move_e(factor: f64, n: usize, line: &mut [f64])
    requires { Sized n line.old }
    ensures { Spanned (ex_inner factor n line.old) 1 (n - 1) line.old line.new }
{
    for a in 1..n - 1 {
        line[a] = leapfrog(factor, line[a], line[n + a], line[n + (a - 1)]);
    }
}

pub fn update_line_h(mu0: f64, s: Spacings, n: usize, line: &mut [f64])
    requires { Sized n line.old }
    ensures { line.new ≡ line_h mu0 s n line.old }
{
    let factor = line_factor(mu0, s);
    move_h(factor, n, line);
}

// The ends take their new numbers from the neighbours' new ones and the old ones of both; the sample comes last.
pub fn update_line_e(eps0: f64, c0: f64, s: Spacings, n: usize, sample: f64, line: &mut [f64])
    requires { Sized n line.old }
    ensures { line.new ≡ line_e eps0 c0 s n sample line.old }
{
    let factor = line_factor(eps0, s);
    let mur = mur_factor(c0, s);
    let low = line[0];
    let low_next = line[1];
    let high = line[n - 1];
    let high_next = line[n - 2];
    move_e(factor, n, line);
    line[0] = mur_end(mur, low, low_next, line[1]);
    line[n - 1] = mur_end(mur, high, high_next, line[n - 2]);
    line[SOURCE_INDEX] = line[SOURCE_INDEX] + sample;
}
