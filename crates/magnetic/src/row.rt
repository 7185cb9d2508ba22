// One row of one component of the magnetic field, by the passes that both half steps share.
ghost use Rattle.std.specs.Prelude.{◌≡◌, cond, ◌+◌, ◌-◌, ◌≤◌, ◌<◌, length, get_or};
ghost use Rattle.std.specs.Float.{nan};
ghost use Rattle.root.specs.Rounded.{◌⊖◌, ◌⊗◌};
ghost use Rattle.fdtd.specs.Yee.{factor};
ghost use Rattle.fdtd.specs.Inner.Span.{Span, Two, Trio};
ghost use Rattle.fdtd.specs.Inner.Rows.{side_memory, Calm, SideRoom};
ghost use Rattle.magnetic.specs.Inner.Row.{ahead_of, slope_of, field_of};

use fdtd::rows;
use fdtd::rows::{Differences, Scratch, Side};

// The factors dt / (mu0 mu) of n cells whose mu stand from m on.
pub fn factors(f: &mut [f64], media: &[f64], m: usize, n: usize, dt: f64, mu0: f64)
    requires { (n ≤ length f.old) × (m + n ≤ length media.now) }
    ensures { Span (λ i. factor dt mu0 (get_or media.now (m + i) nan)) f.old 0 0 n f.new }
{
    for i in 0..n {
        f[i] = update::factor_of(dt, mu0, media[m + i]);
    }
}

// From the cells to their neighbours.
fn ahead(s: Side) -> Differences
    requires { s.own < 18446744073709551615 }
    ensures { result ≡ ahead_of s }
{
    let hi = if s.along { s.own + 1 } else { s.other };
    Differences {
        lo: s.own,
        hi,
        d: s.d,
    }
}

// The neighbour of the last of n cells.
fn last(s: Side, n: usize) -> usize
    requires { (1 ≤ n) × (s.other + n ≤ 18446744073709551615) }
    ensures { result ≡ cond s.along (s.own + 0) (s.other + (n - 1)) }
{
    if s.along { s.own } else { s.other + (n - 1) }
}

// The first m of n cells: along the row, the last cell's neighbour is the first.
fn curls(scr: &mut Scratch, e: &[f64], n: usize, m: usize, b: Side, c: Side)
    requires le_n { (1 ≤ n) × (n ≤ 512) × (m ≤ n) }
    requires n_in_bounds { (b.own + n ≤ length e.now) × (b.other + n ≤ length e.now) × (c.own + n ≤ length e.now) × (c.other + n ≤ length e.now) }
    ensures { Trio (slope_of b e.now n) (slope_of c e.now n) scr.old 0 m scr.new }
{
    if (m == n) & (b.along | c.along) {
        rows::pairs(scr, e, 0, n - 1, ahead(b), ahead(c));
        let x = rows::slope_of(b.d, e[b.own + (n - 1)], e[last(b, n)]);
        let y = rows::slope_of(c.d, e[c.own + (n - 1)], e[last(c, n)]);
        rows::put_pair(scr, n - 1, x, y);
    } else {
        rows::pairs(scr, e, 0, m, ahead(b), ahead(c));
    }
}

// The new numbers of m cells that stand from q on, by their curls and factors.
fn fields(h: &mut [f64], f: &[f64], curl: &[f64], q: usize, m: usize)
    requires { (q + m ≤ length h.old) × (m ≤ length f.now) × (m ≤ length curl.now) }
    ensures { Span (λ i. get_or h.old (q + i) nan ⊖ get_or f.now i nan ⊗ get_or curl.now i nan) h.old q 0 m h.new }
{
    for i in 0..m {
        h[q + i] = update::magnetic_value(h[q + i], f[i], curl[i]);
    }
}

// One row of one component: n cells with the factors f, of which the first m have their neighbours. Put in place of its calls, which would
// copy both sides for each row.
#[inline(always)]
pub fn row(
    h: &mut [f64],
    mem: &mut [f64],
    scr: &mut Scratch,
    f: &[f64],
    e: &[f64],
    tab: &[f64],
    q: usize,
    n: usize,
    m: usize,
    b: Side,
    c: Side,
)
    requires le_n { (1 ≤ n) × (n ≤ 512) × (m ≤ n) }
    requires n_in_bounds { (q + n ≤ length h.old) × (n ≤ length f.now) }
    requires side_room { SideRoom b e.now tab.now mem.old n × SideRoom c e.now tab.now mem.old n }
    requires calm { Calm b tab.now 0 m × Calm c tab.now 0 m }
    requires n_bound { b.mem + n ≤ c.mem }
    ensures span { Span (field_of b c e.now tab.now mem.old f.now h.old n q) h.old q 0 m h.new }
    ensures two { Two (λ i. side_memory b tab.now mem.old i (slope_of b e.now n i)) (λ i. side_memory c tab.now mem.old i (slope_of c e.now n i)) mem.old b.mem c.mem 0 m mem.new }
{
    curls(scr, e, n, m, b, c);
    rows::layer(&mut scr.curl, mem, &scr.first, tab, 0, m, false, b);
    rows::layer(&mut scr.curl, mem, &scr.second, tab, 0, m, true, c);
    fields(h, f, &scr.curl, q, m);
}
