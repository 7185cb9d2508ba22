// What one cell takes and stores where a half step goes cell by cell, as it does in short rows: both half steps share it.
ghost use Rattle.std.specs.Prelude.{◌≡◌, true, ◌+◌, ◌≤◌, ◌<◌, length, get_or};
ghost use Rattle.std.specs.Float.{nan};
ghost use Rattle.fdtd.specs.Yee.{term, slope, in_layer, memory_after, curl};
ghost use Rattle.fdtd.specs.Inner.Cell.{curl_by, first_by, second_by};
ghost use Rattle.fdtd.specs.Inner.Begun.{Lone, Both, Known};
ghost use Rattle.fdtd.specs.Inner.Turns.{Rows};

use crate::turns::Turn;
use crate::{Coef, rows, turns};
use cpml::memory;

// Rows of fewer cells than this go cell by cell. Longer ones would gain less than they can lose: the numbers of a cell stand in some twenty places, and where
// the number of cells is a multiple of 512 these fall on the same few lines of the processor's first cache.
pub const SHORT: usize = 8;

// What the cells of a row share: its first cell, the first cells of the rows beside it on s and on t, whether they may move by their places on s and on t, and
// the layers' numbers there.
#[derive(Clone, Copy)]
pub struct Shared {
    pub q: usize,
    pub bs: usize,
    pub bt: usize,
    pub gos: bool,
    pub got: bool,
    pub ks: Coef,
    pub kt: Coef,
}

// The derivative of the numbers that begin at a, from the cell lo to the cell hi.
fn deriv_of(f: &[f64], d: f64, a: usize, lo: usize, hi: usize) -> f64
    requires { (a + lo < length f.now) × (a + hi < length f.now) }
    ensures { result ≡ slope d (get_or f.now (a + lo) nan) (get_or f.now (a + hi) nan) }
{
    rows::slope_of(d, f[a + lo], f[a + hi])
}

// The curl after one side's layer has joined it, if it is on, and the memory at p moved on. Where it is off the memory is not even read.
// kept: `on` beside k, as `term` of specs/Yee.antt has them.
fn join_layer(
    mem: &mut [f64],
    p: usize,
    second: bool,
    on: bool,
    k: Coef,
    deriv: f64,
    curl: f64,
) -> f64
    requires { p < length mem.old }
    ensures value { result ≡ in_layer second (term on k (get_or mem.old p nan) deriv) curl }
    ensures lone { Lone (memory_after true (term on k (get_or mem.old p nan) deriv)) mem.old p mem.new }
{
    if on {
        let moved = memory::advance(k.b, k.c, mem[p], deriv);
        mem[p] = moved.memory;
        rows::join(second, curl, moved.answer, rows::stretch(k.kinv, deriv))
    } else {
        curl
    }
}

// The curl of a cell whose derivatives are x and y, and its memories, at m1 and m2, moved on. Small, as is all here: the compiler then puts it in place of
// its calls, where a call would copy the numbers.
fn curl_of(
    mem: &mut [f64],
    m1: usize,
    m2: usize,
    x: f64,
    y: f64,
    bon: bool,
    kb: Coef,
    con: bool,
    kc: Coef,
) -> f64
    requires { (m1 < m2) × (m2 < length mem.old) }
    ensures value { result ≡ curl (term bon kb (get_or mem.old m1 nan) x) (term con kc (get_or mem.old m2 nan) y) }
    ensures both { Both (memory_after true (term bon kb (get_or mem.old m1 nan) x)) (memory_after true (term con kc (get_or mem.old m2 nan) y)) mem.old m1 m2 mem.new }
{
    let u = join_layer(mem, m1, false, bon, kb, x, x - y);
    join_layer(mem, m2, true, con, kc, y, u)
}

// The curl of the number along r of a cell, whose differences go from los to his along s and from lot to hit along t, and its memories moved on.
pub fn curl_along(
    mem: &mut [f64],
    f: &[f64],
    g: Turn,
    cell: usize,
    los: usize,
    his: usize,
    lot: usize,
    hit: usize,
    ks: Coef,
    kt: Coef,
) -> f64
    requires cell_lt_count { (cell < g.count) × (los < g.count) × (his < g.count) × (lot < g.count) × (hit < g.count) }
    requires count_in_bounds { (g.t.at + g.count ≤ length f.now) × (g.s.at + g.count ≤ length f.now) × (g.r.mem + g.count + g.count ≤ length mem.old) }
    ensures value { result ≡ curl_by g.r g.s g.t g.count f.now mem.old cell los his lot hit ks kt }
    ensures both { Both (first_by g.r g.s g.t g.count f.now mem.old cell los his lot hit ks kt true) (second_by g.r g.s g.t g.count f.now mem.old cell los his lot hit ks kt true) mem.old (g.r.mem + cell) (g.r.mem + g.count + cell) mem.new }
{
    let x = deriv_of(f, g.s.d, g.t.at, los, his);
    let y = deriv_of(f, g.t.d, g.s.at, lot, hit);
    let m1 = g.r.mem + cell;
    let m2 = g.r.mem + g.count + cell;
    curl_of(mem, m1, m2, x, y, g.s.on, ks, g.t.on, kt)
}

// What the row (s, t) shares, beside the rows (bs, t) and (s, bt).
pub fn find_shared(
    tab: &[f64],
    g: Turn,
    s: usize,
    t: usize,
    bs: usize,
    bt: usize,
    gos: bool,
    got: bool,
) -> Shared
    requires rows { Rows g }
    requires s_lt_n { (s < g.s.n) × (t < g.t.n) × (bs < g.s.n) × (bt < g.t.n) }
    requires n_in_bounds { (g.s.tab + g.s.n + g.s.n + g.s.n ≤ length tab.now) × (g.t.tab + g.t.n + g.t.n + g.t.n ≤ length tab.now) }
    ensures { Known g tab.now s t bs bt gos got result }
{
    let p = turns::find_spot(g, s, t, bs, bt);
    let ks = turns::coef_of(tab, g.s, s);
    let kt = turns::coef_of(tab, g.t, t);
    Shared {
        q: p.q,
        bs: p.bs,
        bt: p.bt,
        gos,
        got,
        ks,
        kt,
    }
}
