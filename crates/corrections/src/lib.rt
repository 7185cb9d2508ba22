// The corrections on the region's faces: all eight are one loop over a box, with a number added in each of its cells.
#![tactic(auto)]

pub mod faces;

ghost use Rattle.std.specs.Prelude.{◌≡◌, ◌+◌, ◌-◌, ◌*◌, ◌≤◌, ◌<◌, length};
ghost use Rattle.cells.specs.Inner.Blocks.{on};
ghost use Rattle.tfsf.specs.Corrections.{signed, added_h, added_e, correct_h, correct_e};
ghost use Rattle.corrections.specs.Inner.Faces.{add_row, add_plane, add_box, addend, addends, face_done, FaceFits, FacesReady};

use grid::Record;
use tfsf::faces::Face;
use tfsf::line::PAD;

// The field that is corrected, H or E: `unit` is the vacuum's permeability or permittivity, n the number of cells; the incident field that it hangs on
// starts at `incident` of the line.
// kept: as a closure the number that a cell gets would need clauses of its own in each of the four functions below.
#[derive(Clone, Copy)]
pub struct Corrected {
    pub magnetic: bool,
    pub unit: f64,
    pub dt: f64,
    pub nx: usize,
    pub ny: usize,
    pub nz: usize,
    pub n: usize,
    pub incident: usize,
}

// ---- the number that a cell gets

fn signed(minus: bool, x: f64) -> f64
    ensures { result ≡ signed minus x }
{
    if minus { -x } else { x }
}

fn added_h(mu0: f64, dt: f64, f: Face, mu: f64, ex: f64) -> f64
    ensures { result ≡ added_h mu0 dt f mu ex }
{
    signed(f.minus, dt / (mu0 * mu * f.d)) * ex
}

fn added_e(eps0: f64, dt: f64, f: Face, eps: f64, sigma: f64, hy: f64) -> f64
    ensures { result ≡ added_e eps0 dt f eps sigma hy }
{
    signed(f.minus, hy / (f.d * (eps0 * eps / dt + sigma / 2.0)))
}

// p is the cell's place in the grid, x the incident number.
fn addend(w: Corrected, f: Face, media: &[f64], x: f64, p: usize) -> f64
    requires { (w.n ≤ 1048576) × (length media.now ≡ 3 * w.n) × (p < w.n) }
    ensures { result ≡ addend w f media.now x p }
{
    let n = w.n;
    if w.magnetic {
        added_h(w.unit, w.dt, f, media[n + p], x)
    } else {
        added_e(w.unit, w.dt, f, media[p], media[2 * n + p], x)
    }
}

// ---- the box, plane by plane and row by row: p is the first cell's place in the grid, q in the store

fn add_row(w: Corrected, f: Face, media: &[f64], x: f64, p: usize, s: &mut [f64], q: usize)
    requires { FaceFits w f media.now s.old × (p + w.nx ≤ w.n) × (q + w.nx ≤ length s.old) }
    ensures { s.new ≡ on q w.nx (add_row w.nx f.b.i0 f.b.i1 (λ i. addend w f media.now x (p + i))) s.old }
{
    for i in f.b.i0..f.b.i1 {
        s[q + i] = s[q + i] + addend(w, f, media, x, p + i);
    }
}

fn add_plane(w: Corrected, f: Face, media: &[f64], x: f64, p: usize, s: &mut [f64], q: usize)
    requires { FaceFits w f media.now s.old × (p + w.ny * w.nx ≤ w.n) × (q + w.ny * w.nx ≤ length s.old) }
    ensures { s.new ≡ on q (w.ny * w.nx) (add_plane w.nx w.ny f.b (λ i j. addend w f media.now x (p + j * w.nx + i))) s.old }
{
    for j in f.b.j0..f.b.j1 {
        add_row(w, f, media, x, p + j * w.nx, s, q + j * w.nx);
    }
}

fn add_box(w: Corrected, f: Face, media: &[f64], line: &[f64], s: &mut [f64])
    requires { FaceFits w f media.now s.old × (w.incident + f.offset + w.nz ≤ length line.now) }
    ensures { s.new ≡ on (f.component * w.n) (w.nz * (w.ny * w.nx)) (add_box w.nx w.ny w.nz f.b (addends w f media.now line.now)) s.old }
{
    let plane = w.ny * w.nx;
    let at = f.component * w.n;
    for k in f.b.k0..f.b.k1 {
        add_plane(
            w,
            f,
            media,
            line[w.incident + f.offset + k],
            k * plane,
            s,
            at + k * plane,
        );
    }
}

fn add_face(w: Corrected, f: Face, media: &[f64], line: &[f64], s: &mut [f64])
    requires { FaceFits w f media.now s.old × (w.incident + f.offset + w.nz ≤ length line.now) }
    ensures { s.new ≡ face_done w f media.now line.now s.old }
{
    if f.there {
        add_box(w, f, media, line, s);
    }
}

// ---- the two fields

pub fn correct_h(mu0: f64, r: Record, media: &[f64], line: &[f64], h: &mut [f64])
    requires { FacesReady r media.now line.now h.old }
    ensures { h.new ≡ correct_h mu0 r media.now line.now h.old }
{
    let g = r.region;
    let s = r.spacings;
    let n = r.nx * r.ny * r.nz;
    let w = Corrected {
        magnetic: true,
        unit: mu0,
        dt: s.dt,
        nx: r.nx,
        ny: r.ny,
        nz: r.nz,
        n,
        incident: 0,
    };
    add_face(w, faces::hy_lower(g, s), media, line, h);
    add_face(w, faces::hy_upper(g, s), media, line, h);
    add_face(w, faces::hz_lower(g, s), media, line, h);
    add_face(w, faces::hz_upper(g, s), media, line, h);
}

pub fn correct_e(eps0: f64, r: Record, media: &[f64], line: &[f64], e: &mut [f64])
    requires { FacesReady r media.now line.now e.old }
    ensures { e.new ≡ correct_e eps0 r media.now line.now e.old }
{
    let g = r.region;
    let s = r.spacings;
    let n = r.nx * r.ny * r.nz;
    let w = Corrected {
        magnetic: false,
        unit: eps0,
        dt: s.dt,
        nx: r.nx,
        ny: r.ny,
        nz: r.nz,
        n,
        incident: r.nz + 2 * PAD,
    };
    add_face(w, faces::ex_lower(g, s), media, line, e);
    add_face(w, faces::ex_upper(g, s), media, line, e);
    add_face(w, faces::ez_lower(g, s), media, line, e);
    add_face(w, faces::ez_upper(g, s), media, line, e);
}
