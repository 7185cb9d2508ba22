// The electric half step: rows along one axis, r, over the other two, s and t, and in each row the three components.
#![tactic(auto)]

pub mod given;
pub mod row;
pub mod short;

ghost use Rattle.std.specs.Prelude.{◌≡◌, cond, ◌+◌, ◌*◌, ◌-◌, ◌≤◌, ◌<◌, eqb, length};
ghost use Rattle.grid.specs.Inner.Sound.{Sound};
ghost use Rattle.grid.specs.Stores.{cells};
ghost use Rattle.ade.specs.Polarization.{delta_p};
ghost use Rattle.fdtd.specs.Axes.{previous_of, walled};
ghost use Rattle.fdtd.specs.Halves.{half_e, psi_after, electric_after};
ghost use Rattle.fdtd.specs.Inner.Turns.{Fit};
ghost use Rattle.electric.specs.Inner.Row.{change_at, OffWallRun, Moved};
ghost use Rattle.electric.specs.Inner.Swept.{Swept, Carried};

use fdtd::rows::Scratch;
use fdtd::turns::Run;
use fdtd::{Axis, single, turns};
use given::{Inputs, Line};
use grid::{Record, stores};
use row::{Change, Factors};

// Whether the place p lies on a wall of w: one that wraps has none.
fn walled_at(w: Axis, p: usize) -> bool
    requires { p < w.n }
    ensures { result ≡ walled w p }
{
    !w.wraps & ((p == 0) | (p == w.n - 1))
}

fn previous_of(p: usize, n: usize) -> usize
    requires { p < n }
    ensures { (result ≡ previous_of p n) × (result < n) }
{
    if p == 0 { n - 1 } else { p - 1 }
}

// dp of the component at `at`, in the row that begins at q.
fn change_at(w: Change, at: usize, q: usize) -> Change
    requires { w.at + at + q ≤ 18446744073709551615 }
    ensures { result ≡ change_at w at q }
{
    Change {
        on: w.on,
        at: w.at + at + q,
        dt: w.dt,
    }
}

// kept: three components, since they differ in which of their sides lie along the row.

// The component along r: both of its sides lie across the row.
fn comp_r(e: &mut [f64], mem: &mut [f64], scr: &mut Scratch, l: &Line)
    requires { Fit l.now.g l.now.h.now l.now.tab.now mem.old e.old }
    ensures { let g = l.now.g in let p = l.now.p in Moved g.r g.s g.t g.count l.now.h.now l.now.tab.now mem.old l.now.f.now l.now.poles.now e.old l.now.w p.q g.r.n (λ i. p.s) (λ i. p.t) (λ i. p.bs + i) (λ i. p.bt + i) e.new mem.new }
{
    let Line {
        f,
        h,
        tab,
        poles,
        w,
        g,
        p,
        ..
    } = *l;
    let n = g.r.n;
    if walled_at(g.s, p.s) | walled_at(g.t, p.t) {
        stores::fill(e, g.r.at + p.q, n, 0.0);
    } else {
        let m = g.r.mem + p.q;
        let k = g.r.mem + g.count + p.q;
        let b = turns::across(tab, g.s, p.s, 0, n, g.t.at + p.q, g.t.at + p.bs, m);
        let c = turns::across(tab, g.t, p.t, 0, n, g.s.at + p.q, g.s.at + p.bt, k);
        let d = change_at(w, g.r.at, p.q);
        row::row(
            e,
            mem,
            scr,
            f,
            h,
            tab,
            poles,
            g.r.at + p.q,
            n,
            0,
            n,
            b,
            c,
            d,
        );
    }
}

// The component along s: its first side lies across the row, its second along it.
fn comp_s(e: &mut [f64], mem: &mut [f64], scr: &mut Scratch, l: &Line)
    requires { Fit l.now.g l.now.h.now l.now.tab.now mem.old e.old }
    ensures { let g = l.now.g in let p = l.now.p in Moved g.s g.t g.r g.count l.now.h.now l.now.tab.now mem.old l.now.f.now l.now.poles.now e.old l.now.w p.q g.r.n (λ i. p.t) (λ i. i) (λ i. p.bt + i) (λ i. p.q + previous_of i g.r.n) e.new mem.new }
{
    let Line {
        f,
        h,
        tab,
        poles,
        w,
        g,
        run,
        p,
    } = *l;
    let n = g.r.n;
    let a = run.start;
    let z = run.end;
    if walled_at(g.t, p.t) {
        stores::fill(e, g.s.at + p.q, n, 0.0);
    } else {
        let m = g.s.mem + p.q;
        let k = g.s.mem + g.count + p.q;
        let b = turns::across(tab, g.t, p.t, a, z, g.r.at + p.q, g.r.at + p.bt, m);
        let c = turns::along(g.r, run, g.t.at + p.q, k);
        let d = change_at(w, g.s.at, p.q);
        row::row(
            e,
            mem,
            scr,
            f,
            h,
            tab,
            poles,
            g.s.at + p.q,
            n,
            a,
            z,
            b,
            c,
            d,
        );
    }
}

// The component along t: its first side lies along the row, its second across it.
fn comp_t(e: &mut [f64], mem: &mut [f64], scr: &mut Scratch, l: &Line)
    requires { Fit l.now.g l.now.h.now l.now.tab.now mem.old e.old }
    ensures { let g = l.now.g in let p = l.now.p in Moved g.t g.r g.s g.count l.now.h.now l.now.tab.now mem.old l.now.f.now l.now.poles.now e.old l.now.w p.q g.r.n (λ i. i) (λ i. p.s) (λ i. p.q + previous_of i g.r.n) (λ i. p.bs + i) e.new mem.new }
{
    let Line {
        f,
        h,
        tab,
        poles,
        w,
        g,
        run,
        p,
    } = *l;
    let n = g.r.n;
    let a = run.start;
    let z = run.end;
    if walled_at(g.s, p.s) {
        stores::fill(e, g.t.at + p.q, n, 0.0);
    } else {
        let m = g.t.mem + p.q;
        let k = g.t.mem + g.count + p.q;
        let b = turns::along(g.r, run, g.s.at + p.q, m);
        let c = turns::across(tab, g.s, p.s, a, z, g.r.at + p.q, g.r.at + p.bs, k);
        let d = change_at(w, g.t.at, p.q);
        row::row(
            e,
            mem,
            scr,
            f,
            h,
            tab,
            poles,
            g.t.at + p.q,
            n,
            a,
            z,
            b,
            c,
            d,
        );
    }
}

// A row of all three components.
fn line(
    e: &mut [f64],
    mem: &mut [f64],
    scr: &mut Scratch,
    f: &mut Factors,
    x: &Inputs,
    run: Run,
    s: usize,
    t: usize,
)
    requires fit { Fit x.now.g x.now.h.now x.now.tab.now mem.old e.old }
    requires off_wall_run { OffWallRun x.now.g.r x.now.tab.now run }
    requires s_lt_n { (s < x.now.g.s.n) × (t < x.now.g.t.n) }
    ensures { Carried x.now.eps0 x.now.w x.now.g x.now.h.now x.now.media.now x.now.tab.now x.now.poles.now s t e.old mem.old e.new mem.new }
{
    let g = x.g;
    let bs = previous_of(s, g.s.n);
    let bt = previous_of(t, g.t.n);
    let p = turns::find_spot(g, s, t, bs, bt);
    row::weigh(f, x.media, p.q, 2 * g.count + p.q, g.r.n, x.eps0, g.dt);
    let l = Line {
        f,
        h: x.h,
        tab: x.tab,
        poles: x.poles,
        w: x.w,
        g,
        run,
        p,
    };
    comp_r(e, mem, scr, &l);
    comp_s(e, mem, scr, &l);
    comp_t(e, mem, scr, &l);
}

// All rows.
fn sweep(e: &mut [f64], mem: &mut [f64], scr: &mut Scratch, f: &mut Factors, x: &Inputs, run: Run)
    requires fit { Fit x.now.g x.now.h.now x.now.tab.now mem.old e.old }
    requires off_wall_run { OffWallRun x.now.g.r x.now.tab.now run }
    ensures { Swept x.now.eps0 x.now.w x.now.g x.now.h.now x.now.media.now x.now.tab.now x.now.poles.now e.old mem.old (x.now.g.t.n * x.now.g.s.n) e.new mem.new }
{
    for t in 0..x.g.t.n {
        for s in 0..x.g.s.n {
            line(e, mem, scr, f, x, run, s, t);
        }
    }
}

// Where the cells of a row that lie on no wall of the row's axis begin and end.
fn start_of(wraps: bool) -> usize
    ensures { result ≡ cond wraps 0 1 }
{
    if wraps { 0 } else { 1 }
}

fn end_of(n: usize, wraps: bool) -> usize
    requires { 1 ≤ n }
    ensures { (result ≡ cond wraps n (cond (eqb n 1) 1 (n - 1))) × (1 ≤ result) × (result ≤ n) }
{
    if wraps {
        n
    } else if n == 1 {
        1
    } else {
        n - 1
    }
}

// In rows. The scratch is a function's own, since its 20 KiB are cleared where that is entered, which short rows do without.
fn sweep_rows(e: &mut [f64], mem: &mut [f64], x: &Inputs)
    requires { Fit x.now.g x.now.h.now x.now.tab.now mem.old e.old }
    ensures { Swept x.now.eps0 x.now.w x.now.g x.now.h.now x.now.media.now x.now.tab.now x.now.poles.now e.old mem.old (x.now.g.t.n * x.now.g.s.n) e.new mem.new }
{
    let mut scr = Scratch {
        first: [0.0; 512],
        second: [0.0; 512],
        curl: [0.0; 512],
    };
    let mut f = Factors {
        ca: [0.0; 512],
        cb: [0.0; 512],
    };
    let start = start_of(x.g.r.wraps);
    let end = end_of(x.g.r.n, x.g.r.wraps);
    let run = turns::find_lull(x.tab, x.g.r, start, end);
    sweep(e, mem, &mut scr, &mut f, x, run);
}

// The whole half step in rows along r.
fn step_along(e: &mut [f64], mem: &mut [f64], x: &Inputs)
    requires { Fit x.now.g x.now.h.now x.now.tab.now mem.old e.old }
    ensures { Swept x.now.eps0 x.now.w x.now.g x.now.h.now x.now.media.now x.now.tab.now x.now.poles.now e.old mem.old (x.now.g.t.n * x.now.g.s.n) e.new mem.new }
{
    if x.g.r.n < single::SHORT {
        short::sweep_cells(e, mem, x);
    } else {
        sweep_rows(e, mem, x);
    }
}

// E(n+1) from E(n), curl H, the change of polarization and the conductivity in every cell, and the layer's electric memories moved on with it.
pub fn update_e_field(
    eps0: f64,
    r: Record,
    h: &[f64],
    media: &[f64],
    tables: &[f64],
    poles: &[f64],
    e: &mut [f64],
    psi_e: &mut [f64],
)
    requires sound { Sound r }
    requires h_len { (length h.now ≡ 3 * cells r) × (length media.now ≡ 3 * cells r) × (length e.old ≡ 3 * cells r) }
    requires psi_e_len { (length psi_e.old ≡ 6 * cells r) × (length tables.now ≡ 6 * (r.nx + r.ny + r.nz)) }
    requires poles_len { length poles.now ≡ (6 * r.pole_slots + 3) * cells r }
    ensures e_after { e.new ≡ electric_after eps0 r h.now media.now tables.now (delta_p r poles.now) psi_e.old e.old }
    ensures psi_e_after { psi_e.new ≡ psi_after half_e r h.now tables.now psi_e.old }
{
    let g = turns::turn_of(r, 0);
    let w = Change {
        on: r.built_count != 0,
        at: 6 * r.pole_slots * (r.nx * r.ny * r.nz),
        dt: r.spacings.dt,
    };
    let x = Inputs {
        h,
        media,
        tab: tables,
        poles,
        w,
        eps0,
        g,
    };
    step_along(e, psi_e, &x);
}
