// The two halves of a step: each field's half step with the wave's part of it, and before E's the polarizations.
#![tactic(auto)]

ghost use Rattle.std.specs.Prelude.{◌≡◌, ◌+◌, ◌*◌, length};
ghost use Rattle.grid.specs.Stores.{cells};
ghost use Rattle.ade.specs.Polarization.{delta_p};
ghost use Rattle.fdtd.specs.Halves.{half_h, psi_after, magnetic_after, half_e, electric_after};
ghost use Rattle.halves.specs.Parts.{line_mid, corrected_h, corrected_e, line_end, poles_stepped};
ghost use Rattle.halves.specs.Inner.Ready.{Wavy, Polar};

use grid::{Record, fault};
use tfsf::line;

// The wave's part of the magnetic half step.
fn wave_h(mu0: f64, r: Record, media: &[f64], aux: &mut [f64], h: &mut [f64])
    requires { Wavy r media.now aux.old h.old }
    ensures aux_after { aux.new ≡ line_mid mu0 r aux.old }
    ensures h_after { h.new ≡ corrected_h mu0 r media.now (line_mid mu0 r aux.old) h.old }
{
    let g = r.region;
    let kind = g.kind;
    if !fault::is_absent(kind) {
        let s = r.spacings;
        line::update_line_h(mu0, s, r.nz + 48, aux);
        corrections::correct_h(mu0, r, media, aux, h);
    }
}

// The wave's part of the electric half step: the line's own E comes after the corrections.
fn wave_e(eps0: f64, c0: f64, r: Record, sample: f64, media: &[f64], aux: &mut [f64], e: &mut [f64])
    requires { Wavy r media.now aux.old e.old }
    ensures aux_after { aux.new ≡ line_end eps0 c0 r sample aux.old }
    ensures e_after { e.new ≡ corrected_e eps0 r media.now aux.old e.old }
{
    let g = r.region;
    let kind = g.kind;
    if !fault::is_absent(kind) {
        corrections::correct_e(eps0, r, media, aux, e);
        let s = r.spacings;
        line::update_line_e(eps0, c0, s, r.nz + 48, sample, aux);
    }
}

fn polarize(eps0: f64, r: Record, ids: &[u32], e: &[f64], poles: &mut [f64])
    requires { Polar r ids.now e.now poles.old }
    ensures { poles.new ≡ poles_stepped eps0 r ids.now e.now poles.old }
{
    if r.built_count != 0 {
        ade::advance(eps0, r, ids, e, poles);
    }
}

pub fn magnetic_half(
    mu0: f64,
    r: Record,
    e: &[f64],
    h: &mut [f64],
    media: &[f64],
    psi_h: &mut [f64],
    tables: &[f64],
    aux: &mut [f64],
)
    requires wavy { Wavy r media.now aux.old h.old }
    requires e_len { (length e.now ≡ 3 * cells r) × (length psi_h.old ≡ 6 * cells r) × (length tables.now ≡ 6 * (r.nx + r.ny + r.nz)) }
    ensures aux_after { aux.new ≡ line_mid mu0 r aux.old }
    ensures h_after { h.new ≡ corrected_h mu0 r media.now (line_mid mu0 r aux.old) (magnetic_after mu0 r e.now media.now tables.now psi_h.old h.old) }
    ensures psi_h_after { psi_h.new ≡ psi_after half_h r e.now tables.now psi_h.old }
{
    magnetic::update_h_field(mu0, r, e, media, tables, h, psi_h);
    wave_h(mu0, r, media, aux, h);
}

pub fn electric_half(
    eps0: f64,
    c0: f64,
    r: Record,
    sample: f64,
    e: &mut [f64],
    h: &[f64],
    media: &[f64],
    psi_e: &mut [f64],
    tables: &[f64],
    poles: &mut [f64],
    aux: &mut [f64],
    ids: &[u32],
)
    requires wavy { Wavy r media.now aux.old h.now }
    requires polar { Polar r ids.now e.old poles.old }
    requires psi_e_len { (length psi_e.old ≡ 6 * cells r) × (length tables.now ≡ 6 * (r.nx + r.ny + r.nz)) }
    ensures poles_after { poles.new ≡ poles_stepped eps0 r ids.now e.old poles.old }
    ensures e_after { e.new ≡ corrected_e eps0 r media.now aux.old (electric_after eps0 r h.now media.now tables.now (delta_p r (poles_stepped eps0 r ids.now e.old poles.old)) psi_e.old e.old) }
    ensures psi_e_after { psi_e.new ≡ psi_after half_e r h.now tables.now psi_e.old }
    ensures aux_after { aux.new ≡ line_end eps0 c0 r sample aux.old }
{
    polarize(eps0, r, ids, e, poles);
    electric::update_e_field(eps0, r, h, media, tables, poles, e, psi_e);
    wave_e(eps0, c0, r, sample, media, aux, e);
}
