// The half step cell by cell, all three components of a cell at once: for rows so short that the passes of row.rt take longer to set up than to run.
ghost use Rattle.std.specs.Prelude.{◌+◌, ◌*◌, ◌≤◌, ◌<◌, length};
ghost use Rattle.fdtd.specs.Axes.{next_of, has_next};
ghost use Rattle.fdtd.specs.Inner.Begun.{Known, StoredBy, Near};
ghost use Rattle.fdtd.specs.Inner.Turns.{Fit};
ghost use Rattle.magnetic.specs.Inner.Celled.{rule_h, Moving};
ghost use Rattle.magnetic.specs.Inner.Swept.{Swept, Carried};

use crate::given::Inputs;
use fdtd::single::Shared;
use fdtd::turns::Turn;
use fdtd::{Coef, single, turns};

// The component along r of a cell, with the cells us and ut after it.
fn component(
    h: &mut [f64],
    mem: &mut [f64],
    e: &[f64],
    g: Turn,
    cell: usize,
    us: usize,
    ut: usize,
    moves: bool,
    f: f64,
    ks: Coef,
    kt: Coef,
)
    requires { Near g e.now mem.old h.old cell us ut }
    ensures { StoredBy (rule_h e.now f) g cell us ut moves ks kt h.old mem.old h.new mem.new }
{
    if moves {
        let q = g.r.at + cell;
        let curl = single::curl_along(mem, e, g, cell, cell, us, cell, ut, ks, kt);
        h[q] = update::magnetic_value(h[q], f, curl);
    }
}

// The cell i of the row (s, t).
fn cell(h: &mut [f64], mem: &mut [f64], x: &Inputs, v: Shared, s: usize, t: usize, i: usize)
    requires fit { Fit x.now.g x.now.e.now x.now.tab.now mem.old h.old }
    requires known { Known x.now.g x.now.tab.now s t (next_of s x.now.g.s.n) (next_of t x.now.g.t.n) (has_next x.now.g.s s) (has_next x.now.g.t t) v }
    requires i_lt_n { i < x.now.g.r.n }
    ensures { Moving x.now.mu0 x.now.g x.now.e.now x.now.media.now x.now.tab.now s t i h.old mem.old h.new mem.new }
{
    let g = x.g;
    let c = v.q + i;
    let us = v.bs + i;
    let ut = v.bt + i;
    let ur = v.q + turns::next_of(i, g.r.n);
    let gor = turns::has_next(g.r, i);
    let kr = turns::coef_of(x.tab, g.r, i);
    let f = update::factor_of(g.dt, x.mu0, x.media[g.count + c]);
    let go_r = v.gos & v.got;
    let go_s = v.got & gor;
    let go_t = gor & v.gos;
    let gs = turns::turned(g);
    let gt = turns::turned(gs);
    component(h, mem, x.e, g, c, us, ut, go_r, f, v.ks, v.kt);
    component(h, mem, x.e, gs, c, ut, ur, go_s, f, v.kt, kr);
    component(h, mem, x.e, gt, c, ur, us, go_t, f, kr, v.ks);
}

// A row of cells.
fn cells_of_row(h: &mut [f64], mem: &mut [f64], x: &Inputs, s: usize, t: usize)
    requires fit { Fit x.now.g x.now.e.now x.now.tab.now mem.old h.old }
    requires s_lt_n { (s < x.now.g.s.n) × (t < x.now.g.t.n) }
    ensures { Carried x.now.mu0 x.now.g x.now.e.now x.now.media.now x.now.tab.now s t h.old mem.old h.new mem.new }
{
    let g = x.g;
    let bs = turns::next_of(s, g.s.n);
    let bt = turns::next_of(t, g.t.n);
    let gos = turns::has_next(g.s, s);
    let got = turns::has_next(g.t, t);
    let v = single::find_shared(x.tab, g, s, t, bs, bt, gos, got);
    for i in 0..g.r.n {
        cell(h, mem, x, v, s, t, i);
    }
}

// All rows.
// kept: a sweep of its own, since a row here needs no scratch, no run and no factors.
pub fn sweep_cells(h: &mut [f64], mem: &mut [f64], x: &Inputs)
    requires { Fit x.now.g x.now.e.now x.now.tab.now mem.old h.old }
    ensures { Swept x.now.mu0 x.now.g x.now.e.now x.now.media.now x.now.tab.now h.old mem.old (x.now.g.t.n * x.now.g.s.n) h.new mem.new }
{
    for t in 0..x.g.t.n {
        for s in 0..x.g.s.n {
            cells_of_row(h, mem, x, s, t);
        }
    }
}
