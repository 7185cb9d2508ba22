// What the half step reads and does not write.
ghost use Rattle.std.specs.Prelude.{◌+◌, ◌<◌, ◌≤◌, length};
ghost use Rattle.electric.specs.Inner.Row.{OffWallRun, DpRoom};

use crate::row::{Change, Factors};
use fdtd::turns::{Run, Spot, Turn};

// The field H, the cells' numbers, the layer's tables, the pole store and where dp stands in it, eps0, and the grid as rows.
#[derive(Clone, Copy)]
pub struct Inputs<'a> {
    pub h: &'a [f64],
    pub media: &'a [f64],
    pub tab: &'a [f64],
    pub poles: &'a [f64],
    pub w: Change,
    pub eps0: f64,
    pub g: Turn,
    pub ghost sigma_in_bounds: { g.count + g.count + g.count ≤ length media.now },
    pub ghost dp_room: { DpRoom g w poles.now },
}

// What the three components of a row read: its factors f, H, the tables and dp, and where it lies.
#[derive(Clone, Copy)]
pub struct Line<'a> {
    pub f: &'a Factors,
    pub h: &'a [f64],
    pub tab: &'a [f64],
    pub poles: &'a [f64],
    pub w: Change,
    pub g: Turn,
    pub run: Run,
    pub p: Spot,
    pub ghost dp_room: { DpRoom g w poles.now },
    pub ghost off_wall_run: { OffWallRun g.r tab.now run },
    pub ghost ins: { p.s < g.s.n },
    pub ghost int: { p.t < g.t.n },
    pub ghost own: { p.q + g.r.n ≤ g.count },
    pub ghost ons: { p.bs + g.r.n ≤ g.count },
    pub ghost ont: { p.bt + g.r.n ≤ g.count },
}
