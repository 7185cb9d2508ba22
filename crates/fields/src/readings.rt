// What is read from the fields: their energy, and the reading of a plane.
ghost use Rattle.std.specs.Prelude.{◌≡◌, ◌+◌, ◌*◌, ◌≤◌, ◌<◌, length};
ghost use Rattle.std.specs.Float.{binary64};
ghost use Rattle.std.specs.Float.Ieee.{mul};
ghost use Rattle.grid.specs.Vacuum.{eps_of, mu_of};
ghost use Rattle.refusals.specs.Refusals.{code, value_or};
ghost use Rattle.root.specs.Rounded.{zero_f, summed};
ghost use Rattle.grid.specs.Stores.{outcome, number_at};
ghost use Rattle.fields.specs.Fields.{squared, cell_energy, energy_at, energy_fault, energy_call, plane_fault, plane_call};

use grid::{Record, stores};
use refusals::{Refusal, require};
use root::vacuum;

fn squared_of(x: f64, y: f64, z: f64) -> f64
    ensures { result ≡ squared x y z }
{
    x * x + y * y + z * z
}

fn cell_energy(eps0: f64, mu0: f64, dv: f64, eps_r: f64, mu_r: f64, e2: f64, h2: f64) -> f64
    ensures { result ≡ cell_energy eps0 mu0 dv eps_r mu_r e2 h2 }
{
    let eps = eps0 * eps_r;
    let mu = mu0 * mu_r;
    (0.5 * eps * e2 + 0.5 * mu * h2) * dv
}

// The square of a field at place m, in a store of n cells.
fn square_at(s: &[f64], n: usize, m: usize) -> f64
    requires { (m < n) × (length s.now ≡ 3 * n) }
    ensures { result ≡ squared (number_at s.now n 0 m) (number_at s.now n 1 m) (number_at s.now n 2 m) }
{
    squared_of(s[m], s[n + m], s[2 * n + m])
}

fn energy_at(
    e: &[f64],
    h: &[f64],
    media: &[f64],
    n: usize,
    dv: f64,
    eps0: f64,
    mu0: f64,
    m: usize,
) -> f64
    requires { (m < n) × (length e.now ≡ 3 * n) × (length h.now ≡ 3 * n) × (length media.now ≡ 3 * n) }
    ensures { result ≡ energy_at eps0 mu0 dv n e.now h.now media.now m }
{
    let e2 = square_at(e, n, m);
    let h2 = square_at(h, n, m);
    cell_energy(eps0, mu0, dv, media[m], media[n + m], e2, h2)
}

fn energy_sum(e: &[f64], h: &[f64], media: &[f64], n: usize, dv: f64, eps0: f64, mu0: f64) -> f64
    requires { (length e.now ≡ 3 * n) × (length h.now ≡ 3 * n) × (length media.now ≡ 3 * n) }
    ensures { result ≡ summed n (energy_at eps0 mu0 dv n e.now h.now media.now) }
{
    let mut energy = 0.0;
    for m in 0..n {
        energy += energy_at(e, h, media, n, dv, eps0, mu0, m);
    }
    energy
}

#[tactic(auto, unfolding(crate::specs::Fields::energy_fault, grid::specs::Stores::fault_lent), using(grid::proofs::Settled::own_fault, grid::proofs::Settled::later_fault))]
fn energy_fault(r: Record, e: usize, h: usize, media: usize) -> Result<(), Refusal>
    ensures { code result ≡ energy_fault r e h media }
{
    let l = stores::judge(r)?;
    require(
        (e == l.electric) & (h == l.magnetic) & (media == l.media),
        Refusal::BadStore,
    )
}

// The energy of both fields, by the record's constants.
#[tactic(auto, unfolding(crate::specs::Fields::energy_call), using(grid::proofs::Settled::refused_with, refusals::proofs::Numbers::stands_in))]
pub fn total_energy(r: Record, e: &[f64], h: &[f64], media: &[f64]) -> Result<f64, Refusal>
    ensures { outcome (code result) r (value_or zero_f result) ≡ energy_call (eps_of r) (mu_of r) r e.now h.now media.now }
{
    energy_fault(r, e.len(), h.len(), media.len())?;
    let dv = r.spacings.dx * r.spacings.dy * r.spacings.dz;
    let v = vacuum::chosen(r.constants);
    Ok(energy_sum(e, h, media, r.nx * r.ny * r.nz, dv, v.eps0, v.mu0))
}

// ex·hy added up over a plane of cells that begins at the place q.
fn plane_sum(e: &[f64], h: &[f64], plane: usize, n: usize, q: usize) -> f64
    requires { (q + plane ≤ n) × (n ≤ 1048576) × (length e.now ≡ 3 * n) × (length h.now ≡ 3 * n) }
    ensures { result ≡ summed plane (λ m. mul binary64 (number_at e.now n 0 (q + m)) (number_at h.now n 1 (q + m))) }
{
    let mut sum = 0.0;
    for m in 0..plane {
        sum += e[q + m] * h[n + (q + m)];
    }
    sum
}

#[tactic(auto, unfolding(crate::specs::Fields::plane_fault, grid::specs::Stores::fault_lent), using(grid::proofs::Settled::own_fault, grid::proofs::Settled::later_fault))]
fn plane_fault(r: Record, k: usize, e: usize, h: usize) -> Result<(), Refusal>
    ensures { code result ≡ plane_fault r k e h }
{
    let l = stores::judge(r)?;
    require((e == l.electric) & (h == l.magnetic), Refusal::BadStore)?;
    require(k < r.nz, Refusal::NoSuchPlane)
}

// ex·hy over the cells of plane k, times the area of a cell.
#[tactic(auto, unfolding(crate::specs::Fields::plane_call), using(grid::proofs::Settled::refused_with, refusals::proofs::Numbers::stands_in))]
pub fn plane_reading(r: Record, k: usize, e: &[f64], h: &[f64]) -> Result<f64, Refusal>
    ensures { outcome (code result) r (value_or zero_f result) ≡ plane_call r k e.now h.now }
{
    plane_fault(r, k, e.len(), h.len())?;
    let plane = r.nx * r.ny;
    let sum = plane_sum(e, h, plane, plane * r.nz, k * plane);
    Ok(sum * (r.spacings.dx * r.spacings.dy))
}
