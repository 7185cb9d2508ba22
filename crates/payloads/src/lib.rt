// The payload of GH, and of one material in ML, written: each number to its own place.
#![tactic(auto)]

ghost use Rattle.std.specs.Prelude.{◌≡◌, [], ◌∷◌, ◌++◌, ◌+◌, ◌≤◌, length};
ghost use Rattle.codec.specs.Lists.{put};
ghost use Rattle.codec.specs.Bytes.{le, enc, bits};
ghost use Rattle.heads.specs.Numbers.{gh_length, float_nums, front_widths, slot_widths, ml_length};
ghost use Rattle.heads.specs.Payloads.{head_bytes, material_bytes};
ghost use Rattle.heads.specs.Inner.Parts.{size_widths, flag_widths, count_widths, corner_widths, float_widths, plan_widths, scale_widths};

use codec::{floats, numbers};
use dispersion::DispersiveMaterial;
use grid::{Clock, Record, Region};
use heads::{flag_nums, float_nums, kept_region, kind_num, slot_nums};
use root::Spacings;

// The lowest byte of a number, and the lowest two: a record's numbers are wider in the code than in a save.
fn put_byte(out: &mut [u8], at: usize, n: u64)
    requires { at + 1 ≤ length out.old }
    ensures { out.new ≡ put out.old at (le 1 n) }
{
    numbers::put_u8(out, at, (n % 0x100) as u8);
}

fn put_two(out: &mut [u8], at: usize, n: u64)
    requires { at + 2 ≤ length out.old }
    ensures { out.new ≡ put out.old at (le 2 n) }
{
    numbers::put_u16(out, at, (n % 0x10000) as u16);
}

fn put_three_twos(out: &mut [u8], at: usize, a: u64, b: u64, c: u64)
    requires { at + 6 ≤ length out.old }
    ensures { out.new ≡ put out.old at (enc size_widths (a ∷ b ∷ c ∷ [])) }
{
    put_two(out, at, a);
    put_two(out, at + 2, b);
    put_two(out, at + 4, c);
}

fn put_flags(out: &mut [u8], at: usize, n: [u64; 7])
    requires { at + 7 ≤ length out.old }
    ensures { out.new ≡ put out.old at (enc flag_widths n) }
{
    for i in 0..7 {
        put_byte(out, at + i, n[i]);
    }
}

fn put_counts(out: &mut [u8], at: usize, a: u64, b: u64, c: u64, d: u64)
    requires { at + 4 ≤ length out.old }
    ensures { out.new ≡ put out.old at (enc count_widths (a ∷ b ∷ c ∷ d ∷ [])) }
{
    put_byte(out, at, a);
    put_byte(out, at + 1, b);
    put_byte(out, at + 2, c);
    put_byte(out, at + 3, d);
}

fn put_floats(out: &mut [u8], at: usize, n: [u64; 5])
    requires { at + 40 ≤ length out.old }
    ensures { out.new ≡ put out.old at (enc float_widths n) }
{
    for i in 0..5 {
        numbers::put_u64(out, at + 8 * i, n[i]);
    }
}

// The 17 bytes before the corners.
fn put_plan(
    out: &mut [u8],
    at: usize,
    nx: usize,
    ny: usize,
    nz: usize,
    flags: [u64; 7],
    built: usize,
    slots: usize,
    materials: usize,
    kind: u64,
)
    requires { at + 17 ≤ length out.old }
    ensures { out.new ≡ put out.old at (enc plan_widths ((nx ∷ ny ∷ nz ∷ []) ++ flags ++ (built ∷ slots ∷ materials ∷ kind ∷ []))) }
{
    put_three_twos(out, at, nx as u64, ny as u64, nz as u64);
    put_flags(out, at + 6, flags);
    put_counts(
        out,
        at + 13,
        built as u64,
        slots as u64,
        materials as u64,
        kind,
    );
}

fn put_corners(out: &mut [u8], at: usize, g: Region)
    requires { at + 12 ≤ length out.old }
    ensures { out.new ≡ put out.old at (enc corner_widths (g.i0 ∷ g.i1 ∷ g.j0 ∷ g.j1 ∷ g.k0 ∷ g.k1 ∷ [])) }
{
    put_three_twos(out, at, g.i0 as u64, g.i1 as u64, g.j0 as u64);
    put_three_twos(out, at + 6, g.j1 as u64, g.k0 as u64, g.k1 as u64);
}

// The 57 bytes from the corners on.
fn put_scale(
    out: &mut [u8],
    at: usize,
    g: Region,
    spacings: Spacings,
    clock: Clock,
    constants: usize,
)
    requires { at + 57 ≤ length out.old }
    ensures { out.new ≡ put out.old at (enc scale_widths ((g.i0 ∷ g.i1 ∷ g.j0 ∷ g.j1 ∷ g.k0 ∷ g.k1 ∷ []) ++ float_nums spacings clock.time ++ (clock.steps ∷ constants ∷ []))) }
{
    put_corners(out, at, g);
    put_floats(out, at + 12, float_nums(spacings, clock.time));
    numbers::put_u32(out, at + 52, clock.steps);
    put_byte(out, at + 56, constants as u64);
}

pub fn put_gh(out: &mut [u8], at: usize, r: Record)
    requires { at + gh_length ≤ length out.old }
    ensures { out.new ≡ put out.old at (head_bytes r) }
{
    let periodic = r.periodic;
    let active = r.active;
    let f = flag_nums(periodic, active, r.layer_on);
    let region = r.region;
    let g = kept_region(region);
    let kind = g.kind;
    let k = kind_num(kind);
    put_plan(
        out,
        at,
        r.nx,
        r.ny,
        r.nz,
        f,
        r.built_count,
        r.pole_slots,
        r.material_count,
        k,
    );
    let spacings = r.spacings;
    let clock = r.clock;
    put_scale(out, at + 17, g, spacings, clock, r.constants);
}

fn put_slot(out: &mut [u8], at: usize, n: [u64; 4])
    requires { at + 25 ≤ length out.old }
    ensures { out.new ≡ put out.old at (enc slot_widths n) }
{
    put_byte(out, at, n[0]);
    numbers::put_u64(out, at + 1, n[1]);
    numbers::put_u64(out, at + 9, n[2]);
    numbers::put_u64(out, at + 17, n[3]);
}

fn put_front(out: &mut [u8], at: usize, eps_inf: f64, sigma: f64, mu_r: f64, pole_count: usize)
    requires { at + 25 ≤ length out.old }
    ensures { out.new ≡ put out.old at (enc front_widths (bits eps_inf ∷ bits sigma ∷ bits mu_r ∷ pole_count ∷ [])) }
{
    floats::put_f64(out, at, eps_inf);
    floats::put_f64(out, at + 8, sigma);
    floats::put_f64(out, at + 16, mu_r);
    put_byte(out, at + 24, pole_count as u64);
}

pub fn put_ml(out: &mut [u8], at: usize, m: DispersiveMaterial)
    requires { at + ml_length ≤ length out.old }
    ensures { out.new ≡ put out.old at (material_bytes m) }
{
    let n = m.pole_count;
    put_front(out, at, m.eps_inf, m.sigma, m.mu_r, n);
    put_slot(out, at + 25, slot_nums(0 < n, m.poles[0]));
    put_slot(out, at + 50, slot_nums(1 < n, m.poles[1]));
    put_slot(out, at + 75, slot_nums(2 < n, m.poles[2]));
    put_slot(out, at + 100, slot_nums(3 < n, m.poles[3]));
}
