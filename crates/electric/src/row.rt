// One row of one component of the electric field, by the passes that both half steps share.
ghost use Rattle.std.specs.Prelude.{◌≡◌, ℕ, Float, true, cond, ◌+◌, ◌-◌, ◌≤◌, ◌<◌, length, get_or};
ghost use Rattle.std.specs.Float.{nan};
ghost use Rattle.root.specs.Rounded.{◌⊕◌, ◌⊖◌, ◌⊗◌, ◌⊘◌};
ghost use Rattle.fdtd.specs.Yee.{ca, cb};
ghost use Rattle.fdtd.specs.Inner.Span.{Span, Two, Trio};
ghost use Rattle.fdtd.specs.Inner.Rows.{side_memory, Calm, SideRoom};
ghost use Rattle.cells.specs.Box.{within};
ghost use Rattle.electric.specs.Inner.Row.{behind_of, slope_of, number_of, field_of};

use fdtd::rows;
use fdtd::rows::{Differences, Scratch, Side};
use grid::stores;

// Where dp stands, and whether there is any.
// kept: as an Option its place would be moved along by cases for each component, and so would its bounds.
#[derive(Clone, Copy)]
pub struct Change {
    pub on: bool,
    pub at: usize,
    pub dt: f64,
}

// What the numbers of a row are multiplied by and divided by.
#[derive(Clone, Copy)]
pub struct Factors {
    pub ca: [f64; 512],
    pub cb: [f64; 512],
}

// Those of n cells, whose eps_r stand from m on and sigma from s on.
pub fn weigh(f: &mut Factors, media: &[f64], m: usize, s: usize, n: usize, eps0: f64, dt: f64)
    requires { (n ≤ 512) × (m + n ≤ length media.now) × (s + n ≤ length media.now) }
    ensures ca { Span (λ i. ca eps0 dt (get_or media.now (m + i) nan) (get_or media.now (s + i) nan)) f.old.ca 0 0 n f.new.ca }
    ensures cb { Span (λ i. cb eps0 dt (get_or media.now (m + i) nan) (get_or media.now (s + i) nan)) f.old.cb 0 0 n f.new.cb }
{
    for i in 0..n {
        let w = update::weights_of(eps0, dt, media[m + i], media[s + i]);
        f.ca[i] = w.ca;
        f.cb[i] = w.cb;
    }
}

// From the neighbours of the cells from the second on to the cells.
fn behind(s: Side) -> Differences
    requires { (s.own < 18446744073709551615) × (s.other < 18446744073709551615) }
    ensures { result ≡ behind_of s }
{
    let lo = if s.along { s.own } else { s.other + 1 };
    Differences {
        lo,
        hi: s.own + 1,
        d: s.d,
    }
}

// The neighbour of the first of n cells.
fn first(s: Side, n: usize) -> usize
    requires { (1 ≤ n) × (s.own + n ≤ 18446744073709551615) }
    ensures { result ≡ cond s.along (s.own + (n - 1)) (s.other + 0) }
{
    if s.along { s.own + (n - 1) } else { s.other }
}

// The cells from a, which is 0 or 1, up to z of n. Along the row, the first cell's neighbour is the last.
fn curls(scr: &mut Scratch, h: &[f64], n: usize, a: usize, z: usize, b: Side, c: Side)
    requires a_bound { (a ≤ 1) × (1 ≤ z) × (z ≤ n) × (n ≤ 512) }
    requires n_in_bounds { (b.own + n ≤ length h.now) × (b.other + n ≤ length h.now) × (c.own + n ≤ length h.now) × (c.other + n ≤ length h.now) }
    ensures { Trio (slope_of b h.now n) (slope_of c h.now n) scr.old a z scr.new }
{
    rows::pairs(scr, h, 1, z - 1, behind(b), behind(c));
    if a == 0 {
        let x = rows::slope_of(b.d, h[first(b, n)], h[b.own]);
        let y = rows::slope_of(c.d, h[first(c, n)], h[c.own]);
        rows::put_pair(scr, 0, x, y);
    }
}

// The new numbers of the cells from a up to z, which stand from q on, by the dp/dt that term gives.
fn numbers<F: Fn(usize) -> f64>(
    e: &mut [f64],
    f: &Factors,
    curl: &[f64],
    q: usize,
    a: usize,
    z: usize,
    term: F,
)
    requires z_in_bounds { (a ≤ z) × (z ≤ 512) × (q + z ≤ length e.old) × (z ≤ length curl.now) }
    requires callable { (i : ℕ) → i < z → F.pre term i }
    ensures { (t : ℕ → Float) → ((i : ℕ) (x : Float) → i < z → F.post term i x → x ≡ t i) → Span (λ i. (get_or f.now.ca i nan ⊗ get_or e.old (q + i) nan ⊕ get_or curl.now i nan ⊖ t i) ⊘ get_or f.now.cb i nan) e.old q a z e.new }
{
    for i in a..z {
        e[q + i] = update::electric_value(f.ca[i], e[q + i], curl[i], term(i), f.cb[i]);
    }
}

// Without dispersion dp is 0.0 everywhere; with it dp stands from w.at on.
fn fields(
    e: &mut [f64],
    f: &Factors,
    curl: &[f64],
    poles: &[f64],
    q: usize,
    a: usize,
    z: usize,
    w: Change,
)
    requires { (a ≤ z) × (z ≤ 512) × (q + z ≤ length e.old) × (z ≤ length curl.now) × (w.at + z ≤ length poles.now) }
    ensures { Span (λ i. number_of true w f.now curl.now poles.now e.old q i) e.old q a z e.new }
{
    if w.on {
        numbers(e, f, curl, q, a, z, |i| poles[w.at + i] / w.dt);
    } else {
        let none = 0.0 / w.dt;
        numbers(e, f, curl, q, a, z, |_| none);
    }
}

// All n cells of the row: those before a and from z on lie on walls.
fn fill_row(
    e: &mut [f64],
    f: &Factors,
    curl: &[f64],
    poles: &[f64],
    q: usize,
    n: usize,
    a: usize,
    z: usize,
    w: Change,
)
    requires { (a ≤ z) × (z ≤ n) × (n ≤ 512) × (q + n ≤ length e.old) × (n ≤ length curl.now) × (w.at + n ≤ length poles.now) }
    ensures { Span (λ i. number_of (within a z i) w f.now curl.now poles.now e.old q i) e.old q 0 n e.new }
{
    stores::fill(e, q, a, 0.0);
    fields(e, f, curl, poles, q, a, z, w);
    stores::fill(e, q + z, n - z, 0.0);
}

// One row of one component: n cells with the factors f, of which those from a up to z move. Put in place of its calls, which would copy both
// sides for each row.
#[inline(always)]
pub fn row(
    e: &mut [f64],
    mem: &mut [f64],
    scr: &mut Scratch,
    f: &Factors,
    h: &[f64],
    tab: &[f64],
    poles: &[f64],
    q: usize,
    n: usize,
    a: usize,
    z: usize,
    b: Side,
    c: Side,
    w: Change,
)
    requires a_bound { (a ≤ 1) × (1 ≤ z) × (z ≤ n) × (n ≤ 512) }
    requires n_in_bounds { (q + n ≤ length e.old) × (w.at + n ≤ length poles.now) }
    requires side_room { SideRoom b h.now tab.now mem.old n × SideRoom c h.now tab.now mem.old n }
    requires calm { Calm b tab.now a z × Calm c tab.now a z }
    requires n_bound { b.mem + n ≤ c.mem }
    ensures span { Span (field_of b c w h.now tab.now mem.old f.now poles.now e.old n a z q) e.old q 0 n e.new }
    ensures two { Two (λ i. side_memory b tab.now mem.old i (slope_of b h.now n i)) (λ i. side_memory c tab.now mem.old i (slope_of c h.now n i)) mem.old b.mem c.mem a z mem.new }
{
    curls(scr, h, n, a, z, b, c);
    rows::layer(&mut scr.curl, mem, &scr.first, tab, a, z, false, b);
    rows::layer(&mut scr.curl, mem, &scr.second, tab, a, z, true, c);
    fill_row(e, f, &scr.curl, poles, q, n, a, z, w);
}
