// Refusals 1 to 3: what is wrong with a study record, the first fault first.
ghost use Rattle.std.specs.Prelude.{◌&&◌, ◌≡◌, ◌≤◌, leb, IfOk};
ghost use Rattle.std.specs.Float.Ieee.Positive.{positive};
ghost use Rattle.refusals.specs.Refusals.{code};
ghost use Rattle.grid.specs.Inner.Sound.{Sound};
ghost use Rattle.grid.specs.Fault.{side_fits, sides_fit, size_fits, spacings_fit, is_absent, corners_fit, region_fits, layer_fits, material_steps, poles_fit, counts_fit, study_fits, fault_of};

use crate::{Record, Region, RegionKind};
use dispersion::DispersiveMaterial;
use refusals::{Refusal, require};
use root::{Spacings, vacuum};

pub const MAX_SIDE: usize = 512;

pub const MAX_CELLS: usize = 1048576;

pub const MAX_POLE_SLOTS: usize = 4;

pub const MAX_MATERIALS: usize = 16;

pub const MAX_CONSTANTS: usize = 1;

fn side_fits(n: usize) -> bool
    ensures { result ≡ side_fits n }
{
    (1 <= n) & (n <= MAX_SIDE)
}

fn sides_fit(nx: usize, ny: usize, nz: usize) -> bool
    ensures { result ≡ sides_fit nx ny nz }
{
    side_fits(nx) & side_fits(ny) & side_fits(nz)
}

fn size_fits(nx: usize, ny: usize, nz: usize) -> bool
    ensures { result ≡ size_fits nx ny nz }
{
    sides_fit(nx, ny, nz) && nx * ny * nz <= MAX_CELLS
}

// Finite and above 0.
fn is_positive(x: f64) -> bool
    ensures { result ≡ positive x }
{
    (0.0 < x) & (x < 1.0 / 0.0)
}

fn spacings_fit(s: Spacings) -> bool
    ensures { result ≡ spacings_fit s }
{
    is_positive(s.dx) & is_positive(s.dy) & is_positive(s.dz) & is_positive(s.dt)
}

pub fn is_absent(k: RegionKind) -> bool
    ensures { result ≡ is_absent k }
{
    matches!(k, RegionKind::Absent)
}

pub fn corners_fit(r: Region, nx: usize, ny: usize, nz: usize) -> bool
    ensures { result ≡ corners_fit r nx ny nz }
{
    (r.i0 <= r.i1) & (r.i1 < nx) & (r.j0 <= r.j1) & (r.j1 < ny) & (r.k0 <= r.k1) & (r.k1 < nz)
}

fn region_fits(r: Region, nx: usize, ny: usize, nz: usize) -> bool
    ensures { result ≡ region_fits r nx ny nz }
{
    is_absent(r.kind) | corners_fit(r, nx, ny, nz)
}

fn layer_fits(active: [bool; 3], layer_on: bool) -> bool
    ensures { result ≡ layer_fits active layer_on }
{
    layer_on | !(active[0] | active[1] | active[2])
}

fn counts_fit(r: Record) -> bool
    ensures { result ≡ counts_fit r }
{
    (r.constants <= MAX_CONSTANTS)
        & (r.pole_slots <= MAX_POLE_SLOTS)
        & (1 <= r.material_count)
        & (r.material_count <= MAX_MATERIALS)
        & (r.built_count <= r.material_count)
        & (r.materials[0].pole_count == 0)
}

// Each counted pole can be stepped.
pub fn material_steps(m: DispersiveMaterial, eps0: f64, dt: f64) -> bool
    requires { m.pole_count ≤ 4 }
    ensures { result ≡ material_steps eps0 dt m }
{
    for slot in 0..m.pole_count {
        if m.poles[slot].ade_coeffs(eps0, dt).stepped.is_err() {
            return false;
        }
    }
    true
}

// A material has no more poles than there are slots, and each can be stepped.
pub fn material_fits(m: DispersiveMaterial, slots: usize, eps0: f64, dt: f64) -> bool
    requires { slots ≤ 4 }
    ensures { result ≡ (leb m.pole_count slots && material_steps eps0 dt m) }
{
    m.pole_count <= slots && material_steps(m, eps0, dt)
}

fn poles_fit(r: Record) -> bool
    requires { (r.material_count ≤ 16) × (r.pole_slots ≤ 4) }
    ensures { result ≡ poles_fit r }
{
    let eps0 = vacuum::chosen(r.constants).eps0;
    for i in 0..r.material_count {
        if !material_fits(r.materials[i], r.pole_slots, eps0, r.spacings.dt) {
            return false;
        }
    }
    true
}

fn study_fits(r: Record) -> bool
    ensures { result ≡ study_fits r }
{
    counts_fit(r)
        && poles_fit(r) & layer_fits(r.active, r.layer_on) & region_fits(r.region, r.nx, r.ny, r.nz)
}

// What is wrong with the record itself.
#[tactic(auto, unfolding(crate::specs::Fault::fault_of))]
pub fn fault_of(r: Record) -> Result<(), Refusal>
    ensures fault { code result ≡ fault_of r }
    ensures sound { IfOk result (λ _. Sound r) }
{
    require(size_fits(r.nx, r.ny, r.nz), Refusal::BadSize)?;
    require(spacings_fit(r.spacings), Refusal::BadSpacing)?;
    require(study_fits(r), Refusal::BadStudy)
}
