// Passes over one row of cells, of which both half steps are made.
ghost use Rattle.std.specs.Prelude.{◌≡◌, cond, ◌+◌, ◌-◌, ◌≤◌, ◌<◌, length, get_or};
ghost use Rattle.std.specs.Float.{nan};
ghost use Rattle.root.specs.Rounded.{◌⊖◌, ◌⊗◌, zero_f, one_f};
ghost use Rattle.fdtd.specs.Yee.{slope, mem_next, joins, layered};
ghost use Rattle.fdtd.specs.Inner.Span.{Span, Trio};
ghost use Rattle.fdtd.specs.Inner.Rows.{k_of, side_layered, side_memory, Calm};

use crate::Coef;
use cpml::memory;

// What the passes hand on: a row's derivatives on its first side and on its second, and its curl.
#[derive(Clone, Copy)]
pub struct Scratch {
    pub first: [f64; 512],
    pub second: [f64; 512],
    pub curl: [f64; 512],
}

// Differences that go from the numbers of a field that begin at lo to those that begin at hi, the cells d in size.
#[derive(Clone, Copy)]
pub struct Differences {
    pub lo: usize,
    pub hi: usize,
    pub d: f64,
}

// A side on which a row's derivatives are taken. Its axis lies across the row, where the layer is k for each cell and the neighbours' numbers begin at
// other; or along it, where the layer is taken from three tables of len numbers each, the first from tab on. From lo to hi the layer is quiet (c is 0).
// kept: a flag and no enum of the two kinds, since all passes read the other fields of both alike, and would match it to do so.
#[derive(Clone, Copy)]
pub struct Side {
    pub along: bool,
    pub on: bool,
    pub d: f64,
    pub k: Coef,
    pub tab: usize,
    pub len: usize,
    pub lo: usize,
    pub hi: usize,
    pub own: usize,
    pub other: usize,
    pub mem: usize,
}

pub fn slope_of(d: f64, lo: f64, hi: f64) -> f64
    ensures { result ≡ slope d lo hi }
{
    (hi - lo) / d
}

pub fn join(second: bool, curl: f64, t: f64, s: f64) -> f64
    ensures { result ≡ joins second curl t s }
{
    if second { curl - t + s } else { curl + t - s }
}

pub fn stretch(kinv: f64, d: f64) -> f64
    ensures { result ≡ (one_f ⊖ kinv) ⊗ d }
{
    (1.0 - kinv) * d
}

// kept: as a function both numbers are read first, so that the loops over it have no branch.
fn pick(along: bool, x: f64, y: f64) -> f64
    ensures { result ≡ cond along x y }
{
    if along { x } else { y }
}

fn coef_at(tab: &[f64], s: Side, i: usize) -> Coef
    requires { s.tab + s.len + s.len + i < length tab.now }
    ensures { result ≡ k_of s tab.now i }
{
    Coef {
        kinv: pick(s.along, tab[s.tab + i], s.k.kinv),
        b: pick(s.along, tab[s.tab + s.len + i], s.k.b),
        c: pick(s.along, tab[s.tab + s.len + s.len + i], s.k.c),
    }
}

// The two derivatives of the cell i, and their difference.
pub fn put_pair(scr: &mut Scratch, i: usize, x: f64, y: f64)
    requires { i < 512 }
    ensures { Trio (λ k. x) (λ k. y) scr.old i (i + 1) scr.new }
{
    scr.first[i] = x;
    scr.second[i] = y;
    scr.curl[i] = x - y;
}

// The same for the n cells from the cell a on, by the differences b and c.
pub fn pairs(scr: &mut Scratch, f: &[f64], a: usize, n: usize, b: Differences, c: Differences)
    requires n_bound { a + n ≤ 512 }
    requires n_in_bounds { (b.lo + n ≤ length f.now) × (b.hi + n ≤ length f.now) × (c.lo + n ≤ length f.now) × (c.hi + n ≤ length f.now) }
    ensures { Trio (λ i. slope b.d (get_or f.now (b.lo + (i - a)) nan) (get_or f.now (b.hi + (i - a)) nan)) (λ i. slope c.d (get_or f.now (c.lo + (i - a)) nan) (get_or f.now (c.hi + (i - a)) nan)) scr.old a (a + n) scr.new }
{
    for i in 0..n {
        put_pair(
            scr,
            a + i,
            slope_of(b.d, f[b.lo + i], f[b.hi + i]),
            slope_of(c.d, f[c.lo + i], f[c.hi + i]),
        );
    }
}

// The layer of a side, whose derivatives are d, from the cell a up to the cell z: where it is quiet,
fn quiet(curl: &mut [f64], d: &[f64], tab: &[f64], a: usize, z: usize, second: bool, s: Side)
    requires z_in_bounds { (a ≤ z) × (z ≤ length curl.old) × (z ≤ length d.now) × (s.tab + s.len + s.len + z ≤ length tab.now) }
    ensures { Span (λ i. joins second (get_or curl.old i nan) zero_f ((one_f ⊖ (k_of s tab.now i).kinv) ⊗ get_or d.now i nan)) curl.old 0 a z curl.new }
{
    for i in a..z {
        let k = coef_at(tab, s, i);
        curl[i] = join(second, curl[i], 0.0, stretch(k.kinv, d[i]));
    }
}

// and where it may not be.
// kept: two loops, since this one moves the memories on and reads three tables where the other reads one.
fn live(
    curl: &mut [f64],
    mem: &mut [f64],
    d: &[f64],
    tab: &[f64],
    a: usize,
    z: usize,
    second: bool,
    s: Side,
)
    requires z_in_bounds { (a ≤ z) × (z ≤ length curl.old) × (z ≤ length d.now) × (s.tab + s.len + s.len + z ≤ length tab.now) }
    requires z_in_memory { s.mem + z ≤ length mem.old }
    ensures curl { Span (λ i. layered second (k_of s tab.now i) (get_or mem.old (s.mem + i) nan) (get_or d.now i nan) (get_or curl.old i nan)) curl.old 0 a z curl.new }
    ensures memory { Span (λ i. mem_next (k_of s tab.now i) (get_or mem.old (s.mem + i) nan) (get_or d.now i nan)) mem.old s.mem a z mem.new }
{
    let p = s.mem;
    for i in a..z {
        let k = coef_at(tab, s, i);
        let moved = memory::advance(k.b, k.c, mem[p + i], d[i]);
        mem[p + i] = moved.memory;
        curl[i] = join(second, curl[i], moved.answer, stretch(k.kinv, d[i]));
    }
}

// The layer of a side, from the cell a up to the cell z.
pub fn layer(
    curl: &mut [f64],
    mem: &mut [f64],
    d: &[f64],
    tab: &[f64],
    a: usize,
    z: usize,
    second: bool,
    s: Side,
)
    requires calm { Calm s tab.now a z }
    requires z_in_bounds { (z ≤ length curl.old) × (z ≤ length d.now) × (s.tab + s.len + s.len + z ≤ length tab.now) }
    requires z_in_memory { s.mem + z ≤ length mem.old }
    ensures curl { Span (λ i. side_layered second s tab.now mem.old i (get_or d.now i nan) (get_or curl.old i nan)) curl.old 0 a z curl.new }
    ensures memory { Span (λ i. side_memory s tab.now mem.old i (get_or d.now i nan)) mem.old s.mem a z mem.new }
{
    if s.on {
        live(curl, mem, d, tab, a, s.lo, second, s);
        quiet(curl, d, tab, s.lo, s.hi, second, s);
        live(curl, mem, d, tab, s.hi, z, second, s);
    }
}
