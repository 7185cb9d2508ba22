// The magnetic half step: rows along one axis, r, over the other two, s and t, and in each row the three components.
#![tactic(auto)]

pub mod given;
pub mod row;
pub mod short;

ghost use Rattle.std.specs.Prelude.{◌≡◌, cond, ◌+◌, ◌*◌, ◌-◌, ◌≤◌, ◌<◌, length};
ghost use Rattle.grid.specs.Inner.Sound.{Sound};
ghost use Rattle.grid.specs.Stores.{cells};
ghost use Rattle.fdtd.specs.Axes.{next_of};
ghost use Rattle.fdtd.specs.Halves.{half_h, psi_after, magnetic_after};
ghost use Rattle.fdtd.specs.Inner.Turns.{Fit};
ghost use Rattle.magnetic.specs.Inner.Row.{NextRun, Moved};
ghost use Rattle.magnetic.specs.Inner.Swept.{Swept, Carried};

use fdtd::rows::Scratch;
use fdtd::turns::Run;
use fdtd::{single, turns};
use given::{Inputs, Line};
use grid::Record;

// kept: three components, since they differ in which of their sides lie along the row.

// The component along r: both of its sides lie across the row.
fn comp_r(h: &mut [f64], mem: &mut [f64], scr: &mut Scratch, l: &Line)
    requires { Fit l.now.g l.now.e.now l.now.tab.now mem.old h.old }
    ensures { let g = l.now.g in let p = l.now.p in Moved g.r g.s g.t g.count l.now.e.now l.now.tab.now mem.old l.now.f.now h.old p.q g.r.n (λ i. p.s) (λ i. p.t) (λ i. p.bs + i) (λ i. p.bt + i) h.new mem.new }
{
    let Line {
        f,
        e,
        tab,
        g,
        p,
        ..
    } = *l;
    if turns::has_next(g.s, p.s) & turns::has_next(g.t, p.t) {
        let n = g.r.n;
        let m = g.r.mem + p.q;
        let k = g.r.mem + g.count + p.q;
        let b = turns::across(tab, g.s, p.s, 0, n, g.t.at + p.q, g.t.at + p.bs, m);
        let c = turns::across(tab, g.t, p.t, 0, n, g.s.at + p.q, g.s.at + p.bt, k);
        row::row(h, mem, scr, f, e, tab, g.r.at + p.q, n, n, b, c);
    }
}

// The component along s: its first side lies across the row, its second along it.
fn comp_s(h: &mut [f64], mem: &mut [f64], scr: &mut Scratch, l: &Line)
    requires { Fit l.now.g l.now.e.now l.now.tab.now mem.old h.old }
    ensures { let g = l.now.g in let p = l.now.p in Moved g.s g.t g.r g.count l.now.e.now l.now.tab.now mem.old l.now.f.now h.old p.q g.r.n (λ i. p.t) (λ i. i) (λ i. p.bt + i) (λ i. p.q + next_of i g.r.n) h.new mem.new }
{
    let Line {
        f,
        e,
        tab,
        g,
        run,
        p,
    } = *l;
    if turns::has_next(g.t, p.t) {
        let z = run.end;
        let m = g.s.mem + p.q;
        let k = g.s.mem + g.count + p.q;
        let b = turns::across(tab, g.t, p.t, 0, z, g.r.at + p.q, g.r.at + p.bt, m);
        let c = turns::along(g.r, run, g.t.at + p.q, k);
        row::row(h, mem, scr, f, e, tab, g.s.at + p.q, g.r.n, z, b, c);
    }
}

// The component along t: its first side lies along the row, its second across it.
fn comp_t(h: &mut [f64], mem: &mut [f64], scr: &mut Scratch, l: &Line)
    requires { Fit l.now.g l.now.e.now l.now.tab.now mem.old h.old }
    ensures { let g = l.now.g in let p = l.now.p in Moved g.t g.r g.s g.count l.now.e.now l.now.tab.now mem.old l.now.f.now h.old p.q g.r.n (λ i. i) (λ i. p.s) (λ i. p.q + next_of i g.r.n) (λ i. p.bs + i) h.new mem.new }
{
    let Line {
        f,
        e,
        tab,
        g,
        run,
        p,
    } = *l;
    if turns::has_next(g.s, p.s) {
        let z = run.end;
        let m = g.t.mem + p.q;
        let k = g.t.mem + g.count + p.q;
        let b = turns::along(g.r, run, g.s.at + p.q, m);
        let c = turns::across(tab, g.s, p.s, 0, z, g.r.at + p.q, g.r.at + p.bs, k);
        row::row(h, mem, scr, f, e, tab, g.t.at + p.q, g.r.n, z, b, c);
    }
}

// A row of all three components.
fn line(
    h: &mut [f64],
    mem: &mut [f64],
    scr: &mut Scratch,
    f: &mut [f64],
    x: &Inputs,
    run: Run,
    s: usize,
    t: usize,
)
    requires fit { Fit x.now.g x.now.e.now x.now.tab.now mem.old h.old }
    requires next_run { NextRun x.now.g.r x.now.tab.now run }
    requires s_lt_n { (s < x.now.g.s.n) × (t < x.now.g.t.n) × (x.now.g.r.n ≤ length f.old) }
    ensures { Carried x.now.mu0 x.now.g x.now.e.now x.now.media.now x.now.tab.now s t h.old mem.old h.new mem.new }
{
    let g = x.g;
    let bs = turns::next_of(s, g.s.n);
    let bt = turns::next_of(t, g.t.n);
    let p = turns::find_spot(g, s, t, bs, bt);
    row::factors(f, x.media, g.count + p.q, g.r.n, g.dt, x.mu0);
    let l = Line {
        f,
        e: x.e,
        tab: x.tab,
        g,
        run,
        p,
    };
    comp_r(h, mem, scr, &l);
    comp_s(h, mem, scr, &l);
    comp_t(h, mem, scr, &l);
}

// All rows.
fn sweep(h: &mut [f64], mem: &mut [f64], scr: &mut Scratch, f: &mut [f64], x: &Inputs, run: Run)
    requires fit { Fit x.now.g x.now.e.now x.now.tab.now mem.old h.old }
    requires next_run { NextRun x.now.g.r x.now.tab.now run }
    requires f_len { x.now.g.r.n ≤ length f.old }
    ensures { Swept x.now.mu0 x.now.g x.now.e.now x.now.media.now x.now.tab.now h.old mem.old (x.now.g.t.n * x.now.g.s.n) h.new mem.new }
{
    for t in 0..x.g.t.n {
        for s in 0..x.g.s.n {
            line(h, mem, scr, f, x, run, s, t);
        }
    }
}

// How many cells of a row have a neighbour along it.
fn reach(n: usize, wraps: bool) -> usize
    requires { 1 ≤ n }
    ensures { (result ≡ cond wraps n (n - 1)) × (result ≤ n) }
{
    if wraps { n } else { n - 1 }
}

// In rows. The scratch is a function's own, since its 16 KiB are cleared where that is entered, which short rows do without.
fn sweep_rows(h: &mut [f64], mem: &mut [f64], x: &Inputs)
    requires { Fit x.now.g x.now.e.now x.now.tab.now mem.old h.old }
    ensures { Swept x.now.mu0 x.now.g x.now.e.now x.now.media.now x.now.tab.now h.old mem.old (x.now.g.t.n * x.now.g.s.n) h.new mem.new }
{
    let mut scr = Scratch {
        first: [0.0; 512],
        second: [0.0; 512],
        curl: [0.0; 512],
    };
    let mut f = [0.0; 512];
    let end = reach(x.g.r.n, x.g.r.wraps);
    let run = turns::find_lull(x.tab, x.g.r, 0, end);
    sweep(h, mem, &mut scr, &mut f, x, run);
}

// The whole half step in rows along r.
fn step_along(h: &mut [f64], mem: &mut [f64], x: &Inputs)
    requires { Fit x.now.g x.now.e.now x.now.tab.now mem.old h.old }
    ensures { Swept x.now.mu0 x.now.g x.now.e.now x.now.media.now x.now.tab.now h.old mem.old (x.now.g.t.n * x.now.g.s.n) h.new mem.new }
{
    if x.g.r.n < single::SHORT {
        short::sweep_cells(h, mem, x);
    } else {
        sweep_rows(h, mem, x);
    }
}

// H(n+1/2) = H(n-1/2) - dt/μ curl E in every cell, and the layer's magnetic memories moved on with it.
pub fn update_h_field(
    mu0: f64,
    r: Record,
    e: &[f64],
    media: &[f64],
    tables: &[f64],
    h: &mut [f64],
    psi_h: &mut [f64],
)
    requires sound { Sound r }
    requires e_len { (length e.now ≡ 3 * cells r) × (length media.now ≡ 3 * cells r) × (length h.old ≡ 3 * cells r) }
    requires psi_h_len { (length psi_h.old ≡ 6 * cells r) × (length tables.now ≡ 6 * (r.nx + r.ny + r.nz)) }
    ensures h_after { h.new ≡ magnetic_after mu0 r e.now media.now tables.now psi_h.old h.old }
    ensures psi_h_after { psi_h.new ≡ psi_after half_h r e.now tables.now psi_h.old }
{
    let g = turns::turn_of(r, 3);
    let x = Inputs {
        e,
        media,
        tab: tables,
        mu0,
        g,
    };
    step_along(h, psi_h, &x);
}
