// The calls that set walls; the absorbing layer's own is in cpml.
#![tactic(auto)]

ghost use Rattle.std.specs.Prelude.{◌≡◌, true, false, ◌+◌, ◌*◌, IfOk};
ghost use Rattle.refusals.specs.Refusals.{code, value_or};
ghost use Rattle.grid.specs.Stores.{outcome, fault_lent, store_lengths};
ghost use Rattle.grid.specs.Edited.{with_walls};
ghost use Rattle.opening.specs.Layer.{layer, layer_long};
ghost use Rattle.boundary.specs.Walls.{all_axes, set_periodic_call, set_plain_call, lossed, lossy_fault, set_lossy_call};

use boundary::{LossyAbsorber, lossy};
use grid::{Record, fault, stores};
use opening::layer::{clear_layer, layer_long};
use refusals::{Refusal, require};

pub const MAX_ORDER: usize = 8;

// Which axes wrap round; the others end in conducting walls.
#[tactic(auto, unfolding(boundary::specs::Walls::set_periodic_call), using(grid::proofs::Settled::handed_back, grid::proofs::Settled::taken_up))]
pub fn set_periodic(r: Record, axes: [bool; 3]) -> Result<Record, Refusal>
    ensures { outcome (code result) (value_or r result) tt ≡ set_periodic_call r axes }
{
    fault::fault_of(r)?;
    Ok(Record {
        periodic: axes,
        ..r
    })
}

// The record with the layer off and these axes periodic.
fn layer_off(r: Record, periodic: [bool; 3]) -> Record
    ensures { result ≡ with_walls r periodic (all_axes false) false }
{
    Record {
        periodic,
        active: [false; 3],
        layer_on: false,
        ..r
    }
}

// The record, with layer's stores and cell numbers long enough for it.
#[tactic(auto, unfolding(grid::specs::Stores::fault_lent), using(grid::proofs::Settled::own_fault, grid::proofs::Settled::later_fault))]
fn layer_fault(r: Record, psi_e: usize, psi_h: usize, tables: usize) -> Result<(), Refusal>
    ensures fault { code result ≡ fault_lent r (layer_long psi_e psi_h tables (store_lengths r)) }
    ensures tabled { IfOk result (λ _. tables ≡ 6 * (r.nx + r.ny + r.nz)) }
{
    let l = stores::judge(r)?;
    require(layer_long(psi_e, psi_h, tables, l), Refusal::BadStore)
}

// All three axes periodic, or all three conducting.
#[tactic(auto, unfolding(boundary::specs::Walls::set_plain_call, boundary::specs::Walls::plain_fault), using(grid::proofs::Settled::handed_back, grid::proofs::Settled::taken_up))]
fn set_plain(
    r: Record,
    periodic: bool,
    psi_e: &mut [f64],
    psi_h: &mut [f64],
    tables: &mut [f64],
) -> Result<Record, Refusal>
    ensures { outcome (code result) (value_or r result) (layer psi_e.new psi_h.new tables.new) ≡ set_plain_call periodic r (layer psi_e.old psi_h.old tables.old) }
{
    layer_fault(r, psi_e.len(), psi_h.len(), tables.len())?;
    clear_layer(r.nx, r.ny, r.nz, psi_e, psi_h, tables);
    Ok(layer_off(r, [periodic; 3]))
}

pub fn set_boundary_periodic(
    r: Record,
    psi_e: &mut [f64],
    psi_h: &mut [f64],
    tables: &mut [f64],
) -> Result<Record, Refusal>
    ensures { outcome (code result) (value_or r result) (layer psi_e.new psi_h.new tables.new) ≡ set_plain_call true r (layer psi_e.old psi_h.old tables.old) }
{
    set_plain(r, true, psi_e, psi_h, tables)
}

pub fn set_boundary_conductor(
    r: Record,
    psi_e: &mut [f64],
    psi_h: &mut [f64],
    tables: &mut [f64],
) -> Result<Record, Refusal>
    ensures { outcome (code result) (value_or r result) (layer psi_e.new psi_h.new tables.new) ≡ set_plain_call false r (layer psi_e.old psi_h.old tables.old) }
{
    set_plain(r, false, psi_e, psi_h, tables)
}

#[tactic(auto, unfolding(boundary::specs::Walls::lossy_fault, grid::specs::Stores::fault_lent, grid::specs::Stores::store_lengths), using(grid::proofs::Settled::own_fault, grid::proofs::Settled::later_fault))]
fn lossy_fault(
    r: Record,
    order: usize,
    psi_e: usize,
    psi_h: usize,
    tables: usize,
    media: usize,
) -> Result<(), Refusal>
    ensures { code result ≡ lossy_fault r order psi_e psi_h tables media }
{
    let l = stores::judge(r)?;
    require(
        layer_long(psi_e, psi_h, tables, l) & (media == l.media),
        Refusal::BadStore,
    )?;
    require(order <= MAX_ORDER, Refusal::BadOrder)
}

// A graded conductivity at the walls that are not periodic.
#[tactic(auto, unfolding(boundary::specs::Walls::set_lossy_call), using(crate::proofs::Settling::lossy_none, grid::proofs::Settled::handed_back, grid::proofs::Settled::taken_up))]
pub fn set_boundary_lossy(
    r: Record,
    a: LossyAbsorber,
    psi_e: &mut [f64],
    psi_h: &mut [f64],
    tables: &mut [f64],
    media: &mut [f64],
) -> Result<Record, Refusal>
    ensures { outcome (code result) (value_or r result) (lossed psi_e.new psi_h.new tables.new media.new) ≡ set_lossy_call r a (lossed psi_e.old psi_h.old tables.old media.old) }
{
    lossy_fault(
        r,
        a.order,
        psi_e.len(),
        psi_h.len(),
        tables.len(),
        media.len(),
    )?;
    clear_layer(r.nx, r.ny, r.nz, psi_e, psi_h, tables);
    lossy::apply_lossy_absorber(r, a, media);
    Ok(layer_off(r, r.periodic))
}
