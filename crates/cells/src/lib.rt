// A box of cells of one store set to one value, of any type.
#![tactic(auto)]

ghost use Rattle.std.specs.Prelude.{◌≡◌, ◌+◌, ◌*◌, ◌≤◌, min, length};
ghost use Rattle.cells.specs.Box.{box_cells};
ghost use Rattle.cells.specs.Counted.{cut};
ghost use Rattle.cells.specs.Inner.Blocks.{on, set_row, set_plane, set_box};

// Cells by half-open ranges of indices: i0 up to i1, and so on.
#[derive(Clone, Copy)]
pub struct IndexBox {
    pub i0: usize,
    pub i1: usize,
    pub j0: usize,
    pub j1: usize,
    pub k0: usize,
    pub k1: usize,
}

// kept: a store and a place in it, and nx, ny and nz as the record and `set_box` have them (docs/DECISIONS.md, D-61).
fn fill_row<T: Copy>(s: &mut [T], at: usize, nx: usize, i0: usize, i1: usize, v: T)
    requires { at + nx ≤ length s.old }
    ensures { s.new ≡ on at nx (set_row nx i0 i1 v) s.old }
{
    for i in i0..i1.min(nx) {
        s[at + i] = v;
    }
}

fn fill_plane<T: Copy>(s: &mut [T], at: usize, nx: usize, ny: usize, b: IndexBox, v: T)
    requires { at + ny * nx ≤ length s.old }
    ensures { s.new ≡ on at (ny * nx) (set_plane nx ny b v) s.old }
{
    for j in b.j0..b.j1.min(ny) {
        fill_row(s, at + j * nx, nx, b.i0, b.i1, v);
    }
}

pub fn fill_box<T: Copy>(s: &mut [T], at: usize, nx: usize, ny: usize, nz: usize, b: IndexBox, v: T)
    requires { (at + nz * (ny * nx) ≤ length s.old) × (ny * nx ≤ 262144) }
    ensures { s.new ≡ on at (nz * (ny * nx)) (set_box nx ny nz b v) s.old }
{
    let plane = ny * nx;
    for k in b.k0..b.k1.min(nz) {
        fill_plane(s, at + k * plane, nx, ny, b, v);
    }
}

// ---- how many cells a box has

// Of the numbers from a up to e, those below n. They are cut before anything is multiplied, so that nothing wraps.
fn cut_to(a: usize, e: usize, n: usize) -> usize
    ensures { (result ≡ cut a e n) × (result ≤ n) }
{
    e.min(n).saturating_sub(a)
}

fn times(a: usize, b: usize, m: usize, n: usize) -> usize
    requires { (a ≤ m) × (b ≤ n) × (m * n ≤ 1048576) }
    ensures { (result ≡ a * b) × (result ≤ m * n) }
{
    a * b
}

pub fn box_cells(nx: usize, ny: usize, nz: usize, b: IndexBox) -> u32
    requires { (ny * nx ≤ 262144) × (nz * (ny * nx) ≤ 1048576) }
    ensures { result ≡ box_cells nx ny nz b }
{
    let x = cut_to(b.i0, b.i1, nx);
    let y = cut_to(b.j0, b.j1, ny);
    let z = cut_to(b.k0, b.k1, nz);
    let plane = times(y, x, ny, nx);
    times(z, plane, nz, ny * nx) as u32
}
