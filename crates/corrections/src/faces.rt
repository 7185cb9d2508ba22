// The eight faces of the region on which a component is corrected.
ghost use Rattle.std.specs.Prelude.{◌≡◌, ◌≤◌};
ghost use Rattle.tfsf.specs.Corrections.{side_faces, upper_face, half_end, z_plane, y_plane, x_plane, hy_lower, hy_upper, hz_lower, hz_upper, ex_lower, ex_upper, ez_lower, ez_upper};
ghost use Rattle.corrections.specs.Inner.Faces.{Low};

use cells::IndexBox;
use grid::{Region, RegionKind};
use root::Spacings;
use tfsf::faces::Face;
use tfsf::index_before;
use tfsf::line::PAD;

fn side_faces(g: Region) -> bool
    ensures { result ≡ side_faces g.kind }
{
    matches!(g.kind, RegionKind::BoxRegion)
}

fn upper_face(g: Region) -> bool
    ensures { result ≡ upper_face g.kind }
{
    matches!(g.kind, RegionKind::SlabZ | RegionKind::BoxRegion)
}

fn half_end(closed: bool, last: usize) -> usize
    requires { last ≤ 512 }
    ensures { result ≡ half_end closed last }
{
    if closed { last } else { last + 1 }
}

fn z_plane(g: Region, k: usize) -> IndexBox
    requires { Low g × (k ≤ 512) }
    ensures { result ≡ z_plane g k }
{
    IndexBox {
        i0: g.i0,
        i1: half_end(side_faces(g), g.i1),
        j0: g.j0,
        j1: g.j1 + 1,
        k0: k,
        k1: k + 1,
    }
}

fn y_plane(g: Region, j: usize) -> IndexBox
    requires { Low g × (j ≤ 512) }
    ensures { result ≡ y_plane g j }
{
    IndexBox {
        i0: g.i0,
        i1: half_end(side_faces(g), g.i1),
        j0: j,
        j1: j + 1,
        k0: g.k0,
        k1: g.k1 + 1,
    }
}

fn x_plane(g: Region, i: usize) -> IndexBox
    requires { Low g × (i ≤ 512) }
    ensures { result ≡ x_plane g i }
{
    IndexBox {
        i0: i,
        i1: i + 1,
        j0: g.j0,
        j1: g.j1 + 1,
        k0: g.k0,
        k1: half_end(upper_face(g), g.k1),
    }
}

// ---- the eight, in the order in which they are corrected

// kept: one function each, since each is a definition of tfsf/specs/Corrections.antt; they differ in component, plane, spacing, sign and place on the line.

pub fn hy_lower(g: Region, s: Spacings) -> Face
    requires { Low g }
    ensures { result ≡ hy_lower g s }
{
    Face {
        there: 1 <= g.k0,
        component: 1,
        b: z_plane(g, index_before(g.k0)),
        d: s.dz,
        minus: false,
        offset: PAD + 1,
    }
}

pub fn hy_upper(g: Region, s: Spacings) -> Face
    requires { Low g }
    ensures { result ≡ hy_upper g s }
{
    Face {
        there: upper_face(g),
        component: 1,
        b: z_plane(g, g.k1),
        d: s.dz,
        minus: true,
        offset: PAD,
    }
}

pub fn hz_lower(g: Region, s: Spacings) -> Face
    requires { Low g }
    ensures { result ≡ hz_lower g s }
{
    Face {
        there: side_faces(g) & (1 <= g.j0),
        component: 2,
        b: y_plane(g, index_before(g.j0)),
        d: s.dy,
        minus: true,
        offset: PAD,
    }
}

pub fn hz_upper(g: Region, s: Spacings) -> Face
    requires { Low g }
    ensures { result ≡ hz_upper g s }
{
    Face {
        there: side_faces(g),
        component: 2,
        b: y_plane(g, g.j1),
        d: s.dy,
        minus: false,
        offset: PAD,
    }
}

pub fn ex_lower(g: Region, s: Spacings) -> Face
    requires { Low g }
    ensures { result ≡ ex_lower g s }
{
    Face {
        there: 1 <= g.k0,
        component: 0,
        b: z_plane(g, g.k0),
        d: s.dz,
        minus: false,
        offset: PAD - 1,
    }
}

pub fn ex_upper(g: Region, s: Spacings) -> Face
    requires { Low g }
    ensures { result ≡ ex_upper g s }
{
    Face {
        there: upper_face(g),
        component: 0,
        b: z_plane(g, g.k1),
        d: s.dz,
        minus: true,
        offset: PAD,
    }
}

pub fn ez_lower(g: Region, s: Spacings) -> Face
    requires { Low g }
    ensures { result ≡ ez_lower g s }
{
    Face {
        there: side_faces(g),
        component: 2,
        b: x_plane(g, g.i0),
        d: s.dx,
        minus: true,
        offset: PAD,
    }
}

pub fn ez_upper(g: Region, s: Spacings) -> Face
    requires { Low g }
    ensures { result ≡ ez_upper g s }
{
    Face {
        there: side_faces(g),
        component: 2,
        b: x_plane(g, g.i1),
        d: s.dx,
        minus: false,
        offset: PAD,
    }
}
