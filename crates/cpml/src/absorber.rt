// The absorbing layer set on the axes that are thick enough for it.
ghost use Rattle.std.specs.Prelude.{◌≡◌, true, ◌+◌, ◌*◌, ◌≤◌, length};
ghost use Rattle.codec.specs.Lists.{put, part};
ghost use Rattle.grid.specs.Edited.{with_walls};
ghost use Rattle.refusals.specs.Refusals.{code, value_or};
ghost use Rattle.grid.specs.Stores.{outcome};
ghost use Rattle.opening.specs.Layer.{layer};
ghost use Rattle.cpml.specs.Absorber.{axis_active, active_axes, periodic_left, axis_tables, layer_tables, cpml_fault, absorbed, active_in, set_cpml_call};

use grid::{Record, stores};
use opening::layer::layer_long;
use refusals::{Refusal, require};

// Without wrapping, for any thickness and any n.
pub fn axis_active(asked: bool, thickness: usize, n: usize) -> bool
    ensures { result ≡ axis_active asked thickness n }
{
    if n < 2 {
        return false;
    }
    asked & (thickness != 0) & (thickness <= (n - 2) / 2)
}

#[tactic(auto, unfolding(crate::specs::Absorber::active_axes))]
fn active_axes(r: Record, axes: [bool; 3], thickness: usize) -> [bool; 3]
    ensures { result ≡ active_axes r axes thickness }
{
    [
        axis_active(axes[0], thickness, r.nx),
        axis_active(axes[1], thickness, r.ny),
        axis_active(axes[2], thickness, r.nz),
    ]
}

fn periodic_left(periodic: [bool; 3], axes: [bool; 3]) -> [bool; 3]
    ensures { result ≡ periodic_left periodic axes }
{
    [
        periodic[0] & !axes[0],
        periodic[1] & !axes[1],
        periodic[2] & !axes[2],
    ]
}

// kept: a loop and no `copy_from_slice`, which becomes a call of `memmove`: the library for C needs memcpy and memset from outside and nothing else.
fn copy(tables: &mut [f64], given: &[f64], at: usize, n: usize)
    requires { (at + n ≤ length tables.old) × (at + n ≤ length given.now) }
    ensures { tables.new ≡ put tables.old at (part given.now at n) }
{
    for i in 0..n {
        tables[at + i] = given[at + i];
    }
}

// One axis's tables: those handed in if it is active, else those of opening. An active axis's part is written by the copy alone, so that a host
// that hands in the lent tables themselves, which it must not, keeps them.
fn put_axis(tables: &mut [f64], given: &[f64], at: usize, n: usize, on: bool)
    requires { (at + 6 * n ≤ length tables.old) × (at + 6 * n ≤ length given.now) × (n ≤ 512) }
    ensures { tables.new ≡ put tables.old at (axis_tables on n (part given.now at (6 * n))) }
{
    if on {
        copy(tables, given, at, 6 * n);
    } else {
        opening::inactive_axis(tables, at, n);
    }
}

fn put_tables(tables: &mut [f64], given: &[f64], nx: usize, ny: usize, nz: usize, active: [bool; 3])
    requires { (nx ≤ 512) × (ny ≤ 512) × (nz ≤ 512) × (length tables.old ≡ 6 * (nx + ny + nz)) × (length given.now ≡ 6 * (nx + ny + nz)) }
    ensures { tables.new ≡ layer_tables nx ny nz active given.now }
{
    put_axis(tables, given, 0, nx, active[0]);
    put_axis(tables, given, 6 * nx, ny, active[1]);
    put_axis(tables, given, 6 * nx + 6 * ny, nz, active[2]);
}

#[tactic(auto, unfolding(crate::specs::Absorber::cpml_fault, grid::specs::Stores::fault_lent), using(grid::proofs::Settled::own_fault, grid::proofs::Settled::later_fault))]
fn cpml_fault(
    r: Record,
    psi_e: usize,
    psi_h: usize,
    tables: usize,
    given: usize,
) -> Result<(), Refusal>
    ensures { code result ≡ cpml_fault r psi_e psi_h tables given }
{
    let l = stores::judge(r)?;
    require(
        layer_long(psi_e, psi_h, tables, l) & (given == l.tables),
        Refusal::BadStore,
    )
}

fn layer_on(r: Record, axes: [bool; 3], active: [bool; 3]) -> Record
    ensures { result ≡ with_walls r (periodic_left r.periodic axes) active true }
{
    Record {
        periodic: periodic_left(r.periodic, axes),
        active,
        layer_on: true,
        ..r
    }
}

// The layer on the axes asked for, with the tables that the caller hands in; the record that it answers names the axes that are thick enough.
#[tactic(auto, unfolding(crate::specs::Absorber::set_cpml_call), using(crate::proofs::Tables::cpml_none, grid::proofs::Settled::handed_back, grid::proofs::Settled::taken_up))]
pub fn set_boundary_cpml(
    r: Record,
    axes: [bool; 3],
    thickness: usize,
    given: &[f64],
    psi_e: &mut [f64],
    psi_h: &mut [f64],
    tables: &mut [f64],
) -> Result<Record, Refusal>
    ensures { outcome (code result) (value_or r result) (absorbed (active_in result) (layer psi_e.new psi_h.new tables.new)) ≡ set_cpml_call r axes thickness given.now (layer psi_e.old psi_h.old tables.old) }
{
    cpml_fault(r, psi_e.len(), psi_h.len(), tables.len(), given.len())?;
    let active = active_axes(r, axes, thickness);
    psi_e.fill(0.0);
    psi_h.fill(0.0);
    put_tables(tables, given, r.nx, r.ny, r.nz, active);
    Ok(layer_on(r, axes, active))
}
