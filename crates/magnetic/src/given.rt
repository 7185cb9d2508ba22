// What the half step reads and does not write.
ghost use Rattle.std.specs.Prelude.{◌+◌, ◌<◌, ◌≤◌, length};
ghost use Rattle.magnetic.specs.Inner.Row.{NextRun};

use fdtd::turns::{Run, Spot, Turn};

// The field E, the cells' numbers, the layer's tables, mu0, and the grid as rows.
#[derive(Clone, Copy)]
pub struct Inputs<'a> {
    pub e: &'a [f64],
    pub media: &'a [f64],
    pub tab: &'a [f64],
    pub mu0: f64,
    pub g: Turn,
    pub ghost mu_in_bounds: { g.count + g.count ≤ length media.now },
}

// What the three components of a row read: its factors f, E and the tables, and where it lies.
#[derive(Clone, Copy)]
pub struct Line<'a> {
    pub f: &'a [f64],
    pub e: &'a [f64],
    pub tab: &'a [f64],
    pub g: Turn,
    pub run: Run,
    pub p: Spot,
    pub ghost f_len: { g.r.n ≤ length f.now },
    pub ghost next_run: { NextRun g.r tab.now run },
    pub ghost ins: { p.s < g.s.n },
    pub ghost int: { p.t < g.t.n },
    pub ghost own: { p.q + g.r.n ≤ g.count },
    pub ghost ons: { p.bs + g.r.n ≤ g.count },
    pub ghost ont: { p.bt + g.r.n ≤ g.count },
}
