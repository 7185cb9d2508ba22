// The grid as rows along one axis, r, over the other two, s and t, which follow it round, and the two kinds of side that a row has.
ghost use Rattle.std.specs.Prelude.{◌≡◌, cond, ◌+◌, ◌*◌, ◌≤◌, ◌<◌, length};
ghost use Rattle.std.specs.Float.Ieee.{eq};
ghost use Rattle.root.specs.Rounded.{zero_f};
ghost use Rattle.grid.specs.Inner.Sound.{Sound};
ghost use Rattle.fdtd.specs.Axes.{next_of, has_next};
ghost use Rattle.fdtd.specs.Yee.{coef_at};
ghost use Rattle.fdtd.specs.Inner.Turns.{axis_by, turn_for, round, side_across, side_along, row_at, Rows, AtSpot, FirstPlace, Lull};

use crate::rows::Side;
use crate::{Axis, Coef};
use grid::Record;

#[derive(Clone, Copy)]
pub struct Turn {
    pub r: Axis,
    pub s: Axis,
    pub t: Axis,
    pub dt: f64,
    pub count: usize,
}

// A row of cells: its places on s and t, its first cell, and the first cells of the rows beside it on s and on t.
#[derive(Clone, Copy)]
pub struct Spot {
    pub s: usize,
    pub t: usize,
    pub q: usize,
    pub bs: usize,
    pub bt: usize,
}

// The cells of a row from start up to end have a neighbour along it; from lo to hi the layer is quiet.
#[derive(Clone, Copy)]
pub struct Run {
    pub start: usize,
    pub end: usize,
    pub lo: usize,
    pub hi: usize,
}

// Axis a, 0, 1 or 2, of n cells of size d, in a grid of count cells; its tables begin at tab.
fn axis(r: Record, a: usize, n: usize, d: f64, count: usize, tab: usize) -> Axis
    requires { (a ≤ 2) × (count ≤ 1048576) }
    ensures { result ≡ axis_by r a n d count tab }
{
    let wraps = r.periodic;
    let on = r.active;
    Axis {
        n,
        d,
        wraps: wraps[a],
        on: on[a],
        at: a * count,
        mem: 2 * a * count,
        tab,
    }
}

// In rows along x; along y where the grid is one cell wide, and along z where it is a line.
pub fn turn_of(r: Record, from: usize) -> Turn
    requires sound { Sound r }
    requires from_bound { from ≤ 3 }
    ensures { result ≡ turn_for r from }
{
    let count = r.nx * r.ny * r.nz;
    let s = r.spacings;
    let dt = s.dt;
    let x = axis(r, 0, r.nx, s.dx, count, from * r.nx);
    let y = axis(r, 1, r.ny, s.dy, count, 6 * r.nx + from * r.ny);
    let z = axis(r, 2, r.nz, s.dz, count, 6 * r.nx + 6 * r.ny + from * r.nz);
    if r.nx != 1 {
        return turn_by(x, y, z, dt, count);
    }
    if r.ny != 1 {
        return turn_by(y, z, x, dt, count);
    }
    turn_by(z, x, y, dt, count)
}

fn turn_by(r: Axis, s: Axis, t: Axis, dt: f64, count: usize) -> Turn
    ensures { result ≡ record { r = r; s = s; t = t; dt = dt; count = count } }
{
    Turn { r, s, t, dt, count }
}

// The same grid with its axes named from the next one round.
pub fn turned(g: Turn) -> Turn
    ensures { result ≡ round g }
{
    turn_by(g.s, g.t, g.r, g.dt, g.count)
}

pub fn has_next(w: Axis, p: usize) -> bool
    requires { p < w.n }
    ensures { result ≡ has_next w p }
{
    p + 1 < w.n || w.wraps
}

pub fn next_of(p: usize, n: usize) -> usize
    requires { p < n }
    ensures { (result ≡ next_of p n) × (result < n) }
{
    if p + 1 < n { p + 1 } else { 0 }
}

fn start_of(c: f64, a: usize, z: usize) -> usize
    ensures { result ≡ cond (eq c zero_f) a z }
{
    if c == 0.0 { a } else { z }
}

// The layer's numbers at the place p of w.
pub fn coef_of(tab: &[f64], w: Axis, p: usize) -> Coef
    requires { (w.tab + w.n + w.n + w.n ≤ length tab.now) × (p < w.n) }
    ensures { result ≡ coef_at w tab.now p }
{
    Coef {
        kinv: tab[w.tab + p],
        b: tab[w.tab + w.n + p],
        c: tab[w.tab + w.n + w.n + p],
    }
}

// The side across a row at the place p of w, for the cells from a up to z.
pub fn across(
    tab: &[f64],
    w: Axis,
    p: usize,
    a: usize,
    z: usize,
    own: usize,
    other: usize,
    mem: usize,
) -> Side
    requires { (w.tab + w.n + w.n + w.n ≤ length tab.now) × (p < w.n) }
    ensures { result ≡ side_across w tab.now p a z own other mem }
{
    let k = coef_of(tab, w, p);
    let lo = start_of(k.c, a, z);
    Side {
        along: false,
        on: w.on,
        d: w.d,
        k,
        tab: 0,
        len: 0,
        lo,
        hi: z,
        own,
        other,
        mem,
    }
}

pub fn along(w: Axis, run: Run, own: usize, mem: usize) -> Side
    ensures { result ≡ side_along w run own mem }
{
    Side {
        along: true,
        on: w.on,
        d: w.d,
        k: Coef {
            kinv: 0.0,
            b: 0.0,
            c: 0.0,
        },
        tab: w.tab,
        len: w.n,
        lo: run.lo,
        hi: run.hi,
        own,
        other: own,
        mem,
    }
}

// The first cell of the row (s, t).
fn row_at(g: Turn, s: usize, t: usize) -> usize
    requires rows { Rows g }
    requires s_lt_n { (s < g.s.n) × (t < g.t.n) }
    ensures { (result ≡ row_at g s t) × (result + g.r.n ≤ g.count) }
{
    (s + t * g.s.n) * g.r.n
}

// The row (s, t), and the rows (bs, t) and (s, bt) beside it.
pub fn find_spot(g: Turn, s: usize, t: usize, bs: usize, bt: usize) -> Spot
    requires rows { Rows g }
    requires s_lt_n { (s < g.s.n) × (t < g.t.n) × (bs < g.s.n) × (bt < g.t.n) }
    ensures { AtSpot g s t bs bt result }
{
    Spot {
        s,
        t,
        q: row_at(g, s, t),
        bs: row_at(g, bs, t),
        bt: row_at(g, s, bt),
    }
}

// The first place from a on, below z, where the number of a table that begins at t is 0, or where it is not; z where there is none.
fn first_place(tab: &[f64], t: usize, a: usize, z: usize, zero: bool) -> usize
    requires { (t + z ≤ length tab.now) × (a ≤ z) }
    ensures { FirstPlace tab.now t a z zero result }
{
    for i in a..z {
        if (tab[t + i] == 0.0) == zero {
            return i;
        }
    }
    z
}

// The cells of w from a up to z, and a run among them where its layer is quiet.
pub fn find_lull(tab: &[f64], w: Axis, a: usize, z: usize) -> Run
    requires { (w.tab + w.n + w.n + w.n ≤ length tab.now) × (a ≤ z) × (z ≤ w.n) }
    ensures { Lull w tab.now a z result }
{
    let lo = first_place(tab, w.tab + w.n + w.n, a, z, true);
    let hi = first_place(tab, w.tab + w.n + w.n, lo, z, false);
    Run {
        start: a,
        end: z,
        lo,
        hi,
    }
}
