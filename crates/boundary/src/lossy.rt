// The graded conductivity of the lossy absorber.
ghost use Rattle.std.specs.Prelude.{◌≡◌, ℕ, ◌<◌, ◌+◌, ◌-◌, ◌*◌, ◌≤◌, length, slice_index_or};
ghost use Rattle.std.specs.Float.{nan};
ghost use Rattle.codec.specs.Lists.{put};
ghost use Rattle.cells.specs.Cells.{joined, row, cellwise};
ghost use Rattle.grid.specs.Inner.Sound.{Sound};
ghost use Rattle.boundary.specs.Lossy.{power, of_count, wall_sigma, stronger, strongest, clamped, graded_sigma, lossy_media};

use crate::LossyAbsorber;
use grid::Record;

// u to the n, by halving the exponent.
pub fn powi(u: f64, n: usize) -> f64
    ensures { result ≡ power u n }
{
    if n == 0 {
        return 1.0;
    }
    if n % 2 == 0 {
        return powi(u * u, n / 2);
    }
    u * powi(u, n - 1)
}

// A count of cells as a number.
fn of_count(n: usize) -> f64
    ensures { result ≡ of_count n }
{
    std::num::nearest_u64_to_f64(n as u64)
}

// The conductivity at d cells from a wall whose layer is t cells thick.
pub fn wall_sigma(t: usize, order: usize, sigma_max: f64, d: usize) -> f64
    ensures { result ≡ wall_sigma t order sigma_max d }
{
    if d < t {
        let ratio = of_count(t - d) / of_count(t);
        return sigma_max * powi(ratio, order);
    }
    0.0
}

// s, unless v is larger.
pub fn stronger_of(s: f64, v: f64) -> f64
    ensures { result ≡ stronger s v }
{
    if v > s { v } else { s }
}

fn strongest_of(x0: f64, x1: f64, y0: f64, y1: f64, z0: f64, z1: f64) -> f64
    ensures { result ≡ strongest x0 x1 y0 y1 z0 z1 }
{
    let x = stronger_of(stronger_of(0.0, x0), x1);
    let y = stronger_of(stronger_of(x, y0), y1);
    stronger_of(stronger_of(y, z0), z1)
}

// The clamped thickness along an axis of n cells.
fn clamp(periodic: bool, thickness: usize, n: usize) -> usize
    ensures { result ≡ clamped periodic thickness n }
{
    if periodic { 0 } else { thickness.min(n / 2) }
}

// One wall's conductivity by the distance from it.
fn fill_wall(wall: &mut [f64; 512], n: usize, t: usize, a: LossyAbsorber)
    requires { n ≤ 512 }
    ensures { (d : ℕ) → d < n → slice_index_or wall.new d nan ≡ wall_sigma t a.order a.sigma_max d }
{
    for d in 0..n {
        wall[d] = wall_sigma(t, a.order, a.sigma_max, d);
    }
}

// A row of sigma, from what the walls of x give by distance and what those of y and z give to the whole row.
fn lossy_row(
    media: &mut [f64],
    at: usize,
    nx: usize,
    x: &[f64; 512],
    y0: f64,
    y1: f64,
    z0: f64,
    z1: f64,
)
    requires { (at + nx ≤ length media.old) × (nx ≤ 512) }
    ensures { media.new ≡ put media.old at (row nx (λ i. strongest (slice_index_or x.now i nan) (slice_index_or x.now (nx - 1 - i) nan) y0 y1 z0 z1)) }
{
    for i in 0..nx {
        media[at + i] = strongest_of(x[i], x[nx - 1 - i], y0, y1, z0, z1);
    }
}

fn lossy_plane(
    media: &mut [f64],
    at: usize,
    nx: usize,
    ny: usize,
    x: &[f64; 512],
    y: &[f64; 512],
    z0: f64,
    z1: f64,
)
    requires { (at + ny * nx ≤ length media.old) × (nx ≤ 512) × (ny ≤ 512) }
    ensures { media.new ≡ put media.old at (joined ny (λ j. row nx (λ i. strongest (slice_index_or x.now i nan) (slice_index_or x.now (nx - 1 - i) nan) (slice_index_or y.now j nan) (slice_index_or y.now (ny - 1 - j) nan) z0 z1))) }
{
    for j in 0..ny {
        lossy_row(media, at + j * nx, nx, x, y[j], y[ny - 1 - j], z0, z1);
    }
}

// sigma of every cell, from the three clamped thicknesses.
fn graded(media: &mut [f64], r: Record, tx: usize, ty: usize, tz: usize, a: LossyAbsorber)
    requires { (r.nx ≤ 512) × (r.ny ≤ 512) × (r.nz ≤ 512) × (r.ny * r.nx ≤ 262144) × (length media.old ≡ 3 * (r.nz * (r.ny * r.nx))) }
    ensures { media.new ≡ put media.old (2 * (r.nz * (r.ny * r.nx))) (cellwise r.nx r.ny r.nz (graded_sigma r.nx r.ny r.nz tx ty tz a.order a.sigma_max)) }
{
    let mut x = [0.0; 512];
    let mut y = [0.0; 512];
    let mut z = [0.0; 512];
    fill_wall(&mut x, r.nx, tx, a);
    fill_wall(&mut y, r.ny, ty, a);
    fill_wall(&mut z, r.nz, tz, a);
    let plane = r.ny * r.nx;
    let at = 2 * (r.nz * plane);
    for k in 0..r.nz {
        lossy_plane(
            media,
            at + k * plane,
            r.nx,
            r.ny,
            &x,
            &y,
            z[k],
            z[r.nz - 1 - k],
        );
    }
}

pub fn apply_lossy_absorber(r: Record, a: LossyAbsorber, media: &mut [f64])
    requires { Sound r × (length media.old ≡ 3 * (r.nx * r.ny * r.nz)) }
    ensures { media.new ≡ lossy_media r a media.old }
{
    let periodic = r.periodic;
    let tx = clamp(periodic[0], a.thickness, r.nx);
    let ty = clamp(periodic[1], a.thickness, r.ny);
    let tz = clamp(periodic[2], a.thickness, r.nz);
    if (tx == 0) & (ty == 0) & (tz == 0) {
        return;
    }
    graded(media, r, tx, ty, tz, a);
}
