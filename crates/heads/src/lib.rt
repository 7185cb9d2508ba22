// The study record as numbers of fixed widths, one after another; `payloads` writes them as bytes, `reads` reads them, `shapes` tells whether they are a record's.
#![tactic(auto)]

ghost use Rattle.std.specs.Prelude.{◌≡◌, ◌≤◌, get_or};
ghost use Rattle.grid.specs.Canon.{canon_region};
ghost use Rattle.heads.specs.Numbers.{kind_num, kind_of, pole_nums, pole_of, slot_nums, slot_of, ml_of, flag_num, flag_nums, float_nums, gh_of};

use codec::floats;
use dispersion::{DispersiveMaterial, Pole};
use grid::{Clock, Record, Region, RegionKind, fault};
use root::Spacings;

// The bytes of GH's payload, as it is written and as it was before the constants, and of one material.
pub const GH_LENGTH: usize = 74;

pub const OLD_LENGTH: usize = 73;

pub const ML_LENGTH: usize = 125;

// kept: no From and no TryFrom, here and at the poles below. Both types are of crates below, each number has a kind (`kind_of`), and a call of `into` is one that
// the test on the source cannot follow (docs/DECISIONS.md, D-52).
pub fn kind_num(k: RegionKind) -> u64
    ensures { result ≡ kind_num k }
{
    match k {
        RegionKind::Absent => 0,
        RegionKind::SlabZ => 1,
        RegionKind::InjectorZ => 2,
        RegionKind::BoxRegion => 3,
    }
}

fn kind_of(n: u64) -> RegionKind
    ensures { result ≡ kind_of n }
{
    match n {
        0 => RegionKind::Absent,
        1 => RegionKind::SlabZ,
        2 => RegionKind::InjectorZ,
        _ => RegionKind::BoxRegion,
    }
}

// A place's tag and three numbers.
fn pole_nums(p: Pole) -> [u64; 4]
    ensures { result ≡ pole_nums p }
{
    match p {
        Pole::Lorentz {
            delta_eps,
            omega0,
            gamma,
        } => [
            1,
            floats::bits_of(delta_eps),
            floats::bits_of(omega0),
            floats::bits_of(gamma),
        ],
        Pole::Drude { omega_p, gamma } => {
            [2, floats::bits_of(omega_p), floats::bits_of(gamma), 0]
        }
        Pole::Debye { delta_eps, tau } => {
            [3, floats::bits_of(delta_eps), floats::bits_of(tau), 0]
        }
    }
}

pub fn slot_nums(counted: bool, p: Pole) -> [u64; 4]
    ensures { result ≡ slot_nums counted p }
{
    if !counted {
        return [0, 0, 0, 0];
    }
    pole_nums(p)
}

// Any other tag than 1 and 2 is read as Debye's: whether it is one is `is_tag` of `shapes`.
pub fn pole_of(tag: u64, x: f64, y: f64, z: f64) -> Pole
    ensures { result ≡ pole_of tag x y z }
{
    match tag {
        1 => Pole::Lorentz {
            delta_eps: x,
            omega0: y,
            gamma: z,
        },
        2 => Pole::Drude {
            omega_p: x,
            gamma: y,
        },
        _ => Pole::Debye {
            delta_eps: x,
            tau: y,
        },
    }
}

fn slot_of(tag: u64, a: u64, b: u64, c: u64) -> Pole
    ensures { result ≡ slot_of tag a b c }
{
    let x = floats::float_of(a);
    let y = floats::float_of(b);
    let z = floats::float_of(c);
    pole_of(tag, x, y, z)
}

pub fn ml_of(n: [u64; 20]) -> DispersiveMaterial
    ensures { result ≡ ml_of n }
{
    let a = slot_of(n[4], n[5], n[6], n[7]);
    let b = slot_of(n[8], n[9], n[10], n[11]);
    let c = slot_of(n[12], n[13], n[14], n[15]);
    let d = slot_of(n[16], n[17], n[18], n[19]);
    let poles = [a, b, c, d];
    DispersiveMaterial {
        eps_inf: floats::float_of(n[0]),
        sigma: floats::float_of(n[1]),
        mu_r: floats::float_of(n[2]),
        pole_count: n[3] as usize,
        poles,
    }
}

pub fn flag_nums(periodic: [bool; 3], active: [bool; 3], on: bool) -> [u64; 7]
    ensures { result ≡ flag_nums periodic active on }
{
    [
        periodic[0] as u64,
        periodic[1] as u64,
        periodic[2] as u64,
        active[0] as u64,
        active[1] as u64,
        active[2] as u64,
        on as u64,
    ]
}

pub fn float_nums(s: Spacings, time: f64) -> [u64; 5]
    ensures { result ≡ float_nums s time }
{
    [
        floats::bits_of(s.dx),
        floats::bits_of(s.dy),
        floats::bits_of(s.dz),
        floats::bits_of(s.dt),
        floats::bits_of(time),
    ]
}

// A region as a record keeps it: without corners where it is missing.
pub fn kept_region(g: Region) -> Region
    ensures { result ≡ canon_region g }
{
    let kind = g.kind;
    if fault::is_absent(kind) {
        return Region {
            kind: RegionKind::Absent,
            i0: 0,
            i1: 0,
            j0: 0,
            j1: 0,
            k0: 0,
            k1: 0,
        };
    }
    g
}

pub fn gh_of(n: [u64; 27], materials: [DispersiveMaterial; 16]) -> Record
    requires { get_or n 25 0 ≤ 4294967295 }
    ensures { result ≡ gh_of n materials }
{
    let spacings = Spacings {
        dx: floats::float_of(n[20]),
        dy: floats::float_of(n[21]),
        dz: floats::float_of(n[22]),
        dt: floats::float_of(n[23]),
    };
    let region = Region {
        kind: kind_of(n[13]),
        i0: n[14] as usize,
        i1: n[15] as usize,
        j0: n[16] as usize,
        j1: n[17] as usize,
        k0: n[18] as usize,
        k1: n[19] as usize,
    };
    let clock = Clock {
        time: floats::float_of(n[24]),
        steps: n[25] as u32,
    };
    let periodic = [n[3] == 1, n[4] == 1, n[5] == 1];
    let active = [n[6] == 1, n[7] == 1, n[8] == 1];
    Record {
        nx: n[0] as usize,
        ny: n[1] as usize,
        nz: n[2] as usize,
        pole_slots: n[11] as usize,
        spacings,
        periodic,
        active,
        layer_on: n[9] == 1,
        materials,
        material_count: n[12] as usize,
        built_count: n[10] as usize,
        region,
        clock,
        constants: n[26] as usize,
    }
}
