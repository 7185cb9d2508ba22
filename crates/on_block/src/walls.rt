// The walls and the absorbing layer.
ghost use Rattle.std.specs.Prelude.{◌≡◌, true, false, [], ◌∷◌};
ghost use Rattle.refusals.specs.Refusals.{code};
ghost use Rattle.opening.specs.Layer.{layer};
ghost use Rattle.boundary.specs.Walls.{set_periodic_call, set_plain_call, lossed, set_lossy_call};
ghost use Rattle.cpml.specs.Absorber.{set_cpml_call};
ghost use Rattle.calls.specs.Blocks.{sent, on_block, answered, naming, named};

use boundary::LossyAbsorber;
use calls::blocks;
use cpml::absorber;
use refusals::Refusal;

pub fn set_periodic(b: &mut [u8], x: bool, y: bool, z: bool) -> Result<(), Refusal>
    ensures { sent (code result) b.new tt ≡ on_block (λ r. set_periodic_call r (x ∷ y ∷ z ∷ [])) b.old tt }
{
    let r = blocks::record_of(b)?;
    blocks::keep(b, walling::set_periodic(r, [x, y, z]))
}

pub fn set_boundary_periodic(
    b: &mut [u8],
    psi_e: &mut [f64],
    psi_h: &mut [f64],
    tables: &mut [f64],
) -> Result<(), Refusal>
    ensures { sent (code result) b.new (layer psi_e.new psi_h.new tables.new) ≡ on_block (λ r. set_plain_call true r (layer psi_e.old psi_h.old tables.old)) b.old (layer psi_e.old psi_h.old tables.old) }
{
    let r = blocks::record_of(b)?;
    blocks::keep(b, walling::set_boundary_periodic(r, psi_e, psi_h, tables))
}

pub fn set_boundary_conductor(
    b: &mut [u8],
    psi_e: &mut [f64],
    psi_h: &mut [f64],
    tables: &mut [f64],
) -> Result<(), Refusal>
    ensures { sent (code result) b.new (layer psi_e.new psi_h.new tables.new) ≡ on_block (λ r. set_plain_call false r (layer psi_e.old psi_h.old tables.old)) b.old (layer psi_e.old psi_h.old tables.old) }
{
    let r = blocks::record_of(b)?;
    blocks::keep(b, walling::set_boundary_conductor(r, psi_e, psi_h, tables))
}

pub fn set_boundary_lossy(
    b: &mut [u8],
    thickness: usize,
    order: usize,
    sigma_max: f64,
    psi_e: &mut [f64],
    psi_h: &mut [f64],
    tables: &mut [f64],
    media: &mut [f64],
) -> Result<(), Refusal>
    ensures { sent (code result) b.new (lossed psi_e.new psi_h.new tables.new media.new) ≡ on_block (λ r. set_lossy_call r (record { thickness = thickness; order = order; sigma_max = sigma_max }) (lossed psi_e.old psi_h.old tables.old media.old)) b.old (lossed psi_e.old psi_h.old tables.old media.old) }
{
    let r = blocks::record_of(b)?;
    let a = LossyAbsorber {
        thickness,
        order,
        sigma_max,
    };
    blocks::keep(
        b,
        walling::set_boundary_lossy(r, a, psi_e, psi_h, tables, media),
    )
}

// Which axes are active goes into the room lent for it: 1 x, 2 y, 4 z, added.
pub fn set_boundary_cpml(
    b: &mut [u8],
    x: bool,
    y: bool,
    z: bool,
    thickness: usize,
    given: &[f64],
    psi_e: &mut [f64],
    psi_h: &mut [f64],
    tables: &mut [f64],
    active: &mut [u32],
) -> Result<(), Refusal>
    ensures { sent (code result) b.new (named active.new (layer psi_e.new psi_h.new tables.new)) ≡ on_block (λ r. naming (set_cpml_call r (x ∷ y ∷ z ∷ []) thickness given.now (layer psi_e.old psi_h.old tables.old)) active.old) b.old (named (answered 0 active.old) (layer psi_e.old psi_h.old tables.old)) }
{
    blocks::answer(active, 0);
    let r = blocks::record_of(b)?;
    let r = absorber::set_boundary_cpml(r, [x, y, z], thickness, given, psi_e, psi_h, tables)?;
    blocks::answer(active, blocks::axis_bits(r.active));
    blocks::keep(b, Ok(r))
}
