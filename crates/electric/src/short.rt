// The half step cell by cell, all three components of a cell at once: for rows so short that the passes of row.rt take longer to set up than to run.
ghost use Rattle.std.specs.Prelude.{◌≡◌, not, ◌+◌, ◌*◌, ◌≤◌, ◌<◌, length};
ghost use Rattle.root.specs.Rounded.{◌⊘◌, zero_f};
ghost use Rattle.fdtd.specs.Axes.{previous_of, walled};
ghost use Rattle.fdtd.specs.Inner.Begun.{Known, StoredBy, Near};
ghost use Rattle.fdtd.specs.Inner.Turns.{Fit};
ghost use Rattle.electric.specs.Inner.Row.{dp_of};
ghost use Rattle.electric.specs.Inner.Celled.{rule_e, Moving};
ghost use Rattle.electric.specs.Inner.Swept.{Swept, Carried};

use crate::given::Inputs;
use fdtd::single::Shared;
use fdtd::turns::Turn;
use fdtd::{Axis, Coef, single, turns};
use update::Weights;

// dp/dt of the number at i. Without dispersion it is none, 0.0/dt, divided once for all cells.
fn term_of(x: &Inputs, none: f64, i: usize) -> f64
    requires { (none ≡ zero_f ⊘ x.now.w.dt) × (x.now.w.at + i < length x.now.poles.now) }
    ensures { result ≡ dp_of x.now.w x.now.poles.now i ⊘ x.now.w.dt }
{
    if x.w.on {
        x.poles[x.w.at + i] / x.w.dt
    } else {
        none
    }
}

// The component along r of a cell, with the cells ds and dt before it; +0.0 where it lies on a wall.
fn component(
    e: &mut [f64],
    mem: &mut [f64],
    x: &Inputs,
    none: f64,
    g: Turn,
    cell: usize,
    ds: usize,
    dt: usize,
    moves: bool,
    f: Weights,
    ks: Coef,
    kt: Coef,
)
    requires near { Near g x.now.h.now mem.old e.old cell ds dt }
    requires dp_in_bounds { x.now.w.at + g.r.at + g.count ≤ length x.now.poles.now }
    requires none_value { none ≡ zero_f ⊘ x.now.w.dt }
    ensures { StoredBy (rule_e x.now.h.now x.now.w x.now.poles.now f.ca f.cb) g cell ds dt moves ks kt e.old mem.old e.new mem.new }
{
    let q = g.r.at + cell;
    if moves {
        let curl = single::curl_along(mem, x.h, g, cell, ds, cell, dt, cell, ks, kt);
        e[q] = update::electric_value(f.ca, e[q], curl, term_of(x, none, q), f.cb);
    } else {
        e[q] = 0.0;
    }
}

fn free_at(w: Axis, p: usize) -> bool
    requires { p < w.n }
    ensures { result ≡ not (walled w p) }
{
    !crate::walled_at(w, p)
}

// The cell i of the row (s, t).
fn cell(
    e: &mut [f64],
    mem: &mut [f64],
    x: &Inputs,
    none: f64,
    v: Shared,
    s: usize,
    t: usize,
    i: usize,
)
    requires fit { Fit x.now.g x.now.h.now x.now.tab.now mem.old e.old }
    requires known { Known x.now.g x.now.tab.now s t (previous_of s x.now.g.s.n) (previous_of t x.now.g.t.n) (not (walled x.now.g.s s)) (not (walled x.now.g.t t)) v }
    requires i_lt_n { i < x.now.g.r.n }
    requires none_value { none ≡ zero_f ⊘ x.now.w.dt }
    ensures { Moving x.now.eps0 x.now.w x.now.g x.now.h.now x.now.media.now x.now.tab.now x.now.poles.now s t i e.old mem.old e.new mem.new }
{
    let g = x.g;
    let c = v.q + i;
    let ds = v.bs + i;
    let dt = v.bt + i;
    let dr = v.q + crate::previous_of(i, g.r.n);
    let gor = free_at(g.r, i);
    let kr = turns::coef_of(x.tab, g.r, i);
    let f = update::weights_of(x.eps0, g.dt, x.media[c], x.media[2 * g.count + c]);
    let go_r = v.gos & v.got;
    let go_s = v.got & gor;
    let go_t = gor & v.gos;
    let gs = turns::turned(g);
    let gt = turns::turned(gs);
    component(e, mem, x, none, g, c, ds, dt, go_r, f, v.ks, v.kt);
    component(e, mem, x, none, gs, c, dt, dr, go_s, f, v.kt, kr);
    component(e, mem, x, none, gt, c, dr, ds, go_t, f, kr, v.ks);
}

// A row of cells.
fn cells_of_row(e: &mut [f64], mem: &mut [f64], x: &Inputs, none: f64, s: usize, t: usize)
    requires fit { Fit x.now.g x.now.h.now x.now.tab.now mem.old e.old }
    requires s_lt_n { (s < x.now.g.s.n) × (t < x.now.g.t.n) }
    requires none_value { none ≡ zero_f ⊘ x.now.w.dt }
    ensures { Carried x.now.eps0 x.now.w x.now.g x.now.h.now x.now.media.now x.now.tab.now x.now.poles.now s t e.old mem.old e.new mem.new }
{
    let g = x.g;
    let bs = crate::previous_of(s, g.s.n);
    let bt = crate::previous_of(t, g.t.n);
    let gos = free_at(g.s, s);
    let got = free_at(g.t, t);
    let v = single::find_shared(x.tab, g, s, t, bs, bt, gos, got);
    for i in 0..g.r.n {
        cell(e, mem, x, none, v, s, t, i);
    }
}

// All rows.
// kept: a sweep of its own, since a row here needs no scratch, no run and no factors.
pub fn sweep_cells(e: &mut [f64], mem: &mut [f64], x: &Inputs)
    requires { Fit x.now.g x.now.h.now x.now.tab.now mem.old e.old }
    ensures { Swept x.now.eps0 x.now.w x.now.g x.now.h.now x.now.media.now x.now.tab.now x.now.poles.now e.old mem.old (x.now.g.t.n * x.now.g.s.n) e.new mem.new }
{
    let none = 0.0 / x.w.dt;
    for t in 0..x.g.t.n {
        for s in 0..x.g.s.n {
            cells_of_row(e, mem, x, none, s, t);
        }
    }
}
