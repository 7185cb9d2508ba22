// The polarizations of the dispersive cells, moved on before the electric half step.
#![tactic(auto)]

ghost use Rattle.std.specs.Prelude.{◌≡◌, ℕ, ◌+◌, ◌*◌, ◌≤◌, ◌<◌, length, get_or};
ghost use Rattle.root.specs.Rounded.{◌⊕◌, ◌⊖◌};
ghost use Rattle.dispersion.specs.Ade.{ade_coeffs};
ghost use Rattle.dispersion.specs.Material.{pole_in};
ghost use Rattle.grid.specs.Fault.{pole_count};
ghost use Rattle.ade.specs.Polarization.{polarized, poles_after};
ghost use Rattle.ade.specs.Inner.Runs.{PolesReady, Listed, Stepping, Table, coeff_at, nothing, store_moved, Changed, by_span, by_three, by_run, by_cell, RunEnd, PolesRoom};

use dispersion::{AdeCoeffs, DispersiveMaterial};
use grid::{Record, stores};

// A material's counted poles as the coefficients that step them.
#[derive(Clone, Copy)]
pub struct Stepped {
    pub count: usize,
    pub coeffs: [AdeCoeffs; 4],
}

// The cells from a up to z, of n.
#[derive(Clone, Copy)]
pub struct Cells {
    pub n: usize,
    pub a: usize,
    pub z: usize,
    ghost order: { a ≤ z },
    ghost within: { z ≤ n },
}

fn polarized_of(k: AdeCoeffs, p: f64, before: f64, e: f64) -> f64
    ensures { result ≡ polarized k p before e }
{
    k.a1 * p + k.a2 * before + k.a3 * e
}

// dp with the change from p to q.
fn grown(dp: f64, q: f64, p: f64) -> f64
    ensures { result ≡ dp ⊕ (q ⊖ p) }
{
    dp + (q - p)
}

// One cell's three numbers: p at i, p before at j, dp at d.
fn turn(poles: &mut [f64], k: AdeCoeffs, e: f64, i: usize, j: usize, d: usize)
    requires { (i < length poles.old) × (j < length poles.old) × (d < length poles.old) }
    ensures { poles.new ≡ store_moved k e i j d poles.old }
{
    let p = poles[i];
    let q = polarized_of(k, p, poles[j], e);
    let dp = grown(poles[d], q, p);
    poles[i] = q;
    poles[j] = p;
    poles[d] = dp;
}

// Component c of one slot: p in block i, p before in block j, dp in block d.
fn span(
    poles: &mut [f64],
    e: &[f64],
    k: AdeCoeffs,
    w: Cells,
    c: usize,
    i: usize,
    j: usize,
    d: usize,
)
    requires n_in_bounds { (i * w.n + w.n ≤ length poles.old) × (j * w.n + w.n ≤ length poles.old) × (d * w.n + w.n ≤ length poles.old) }
    requires n_in_bounds_2 { c * w.n + w.n ≤ length e.now }
    ensures { Changed w.n w.a w.z (by_span k e.now w.n c i j d) poles.old poles.new }
{
    let i0 = i * w.n;
    let j0 = j * w.n;
    let d0 = d * w.n;
    let e0 = c * w.n;
    for m in w.a..w.z {
        turn(poles, k, e[e0 + m], i0 + m, j0 + m, d0 + m);
    }
}

// The three components of a slot: p in the blocks from i on, p before in those from j on, dp in those from d on.
fn components(poles: &mut [f64], e: &[f64], k: AdeCoeffs, w: Cells, i: usize, j: usize, d: usize)
    requires i_le_d { (i ≤ d) × (j ≤ d) × (d ≤ 24) × (3 * w.n ≤ length e.now) }
    requires by_index { (b : ℕ) → b ≤ d + 2 → b * w.n + w.n ≤ length poles.old }
    ensures { Changed w.n w.a w.z (by_three k e.now w.n i j d) poles.old poles.new }
{
    span(poles, e, k, w, 0, i, j, d);
    span(poles, e, k, w, 1, i + 1, j + 1, d + 1);
    span(poles, e, k, w, 2, i + 2, j + 2, d + 2);
}

// The counted slots of a material.
fn run(poles: &mut [f64], e: &[f64], k: &Stepped, slots: usize, w: Cells)
    requires poles_room { PolesRoom w.n slots e.now poles.old }
    requires count_le_slots { k.now.count ≤ slots }
    ensures { Changed w.n w.a w.z (by_run k.now e.now w.n slots k.now.count) poles.old poles.new }
{
    for s in 0..k.count {
        components(
            poles,
            e,
            k.coeffs[s],
            w,
            3 * s,
            3 * slots + 3 * s,
            6 * slots,
        );
    }
}

// The end of the run of cells of one material that begins at a.
fn run_end(ids: &[u32], n: usize, a: usize) -> usize
    requires { (a < n) × (n ≤ length ids.now) }
    ensures { RunEnd ids.now n a result }
{
    let id = ids[a];
    for z in a + 1..n {
        if ids[z] != id {
            return z;
        }
    }
    n
}

fn advance_cells(
    poles: &mut [f64],
    ids: &[u32],
    e: &[f64],
    table: &[Stepped; 16],
    n: usize,
    slots: usize,
)
    requires poles_room { PolesRoom n slots e.now poles.old }
    requires n_in_bounds { n ≤ length ids.now }
    requires by_index { (m : ℕ) → m < n → (get_or ids.now m 0 < 16) × ((get_or table.now (get_or ids.now m 0) nothing).count ≤ slots) }
    ensures { Changed n 0 n (by_cell table.now ids.now e.now n slots) poles.old poles.new }
{
    // kept: it goes by runs of cells, and counts no index.
    let mut a = 0;
    while a < n {
        let z = run_end(ids, n, a);
        let id = ids[a] as usize;
        run(poles, e, &table[id], slots, Cells { n, a, z });
        a = z;
    }
}

#[tactic(auto, using(dispersion::proofs::Places::pole_within))]
fn coeffs_of(eps0: f64, dt: f64, material: DispersiveMaterial, slot: usize) -> AdeCoeffs
    requires { slot < 4 }
    ensures { result ≡ ade_coeffs eps0 dt (pole_in material slot) }
{
    material.poles[slot].coeffs(eps0, dt)
}

// No pole counted.
fn blank() -> Stepped {
    let none = AdeCoeffs {
        a1: 0.0,
        a2: 0.0,
        a3: 0.0,
    };
    Stepped {
        count: 0,
        coeffs: [none; 4],
    }
}

fn stepped_of(eps0: f64, dt: f64, material: DispersiveMaterial) -> Stepped
    requires { material.pole_count ≤ 4 }
    ensures { Stepping eps0 dt material result }
{
    let count = material.pole_count;
    let mut coeffs = blank().coeffs;
    for slot in 0..count {
        coeffs[slot] = coeffs_of(eps0, dt, material, slot);
    }
    Stepped { count, coeffs }
}

fn tabulate(table: &mut [Stepped; 16], eps0: f64, r: Record)
    requires material_count_bound { r.material_count ≤ 16 }
    requires by_index { (i : ℕ) → i < r.material_count → pole_count r i ≤ 4 }
    ensures { Table eps0 r r.material_count table.new }
{
    let dt = r.spacings.dt;
    for i in 0..r.material_count {
        table[i] = stepped_of(eps0, dt, r.materials[i]);
    }
}

pub fn advance(eps0: f64, r: Record, ids: &[u32], e: &[f64], poles: &mut [f64])
    requires { PolesReady r ids.now e.now poles.old }
    ensures { poles.new ≡ poles_after eps0 r ids.now e.now poles.old }
{
    let mut table = [blank(); 16];
    tabulate(&mut table, eps0, r);
    let n = r.nx * r.ny * r.nz;
    let slots = r.pole_slots;
    stores::fill(poles, 6 * slots * n, 3 * n, 0.0);
    advance_cells(poles, ids, e, &table, n, slots);
}
