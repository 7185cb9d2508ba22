// The sample studies of document 01 that are not in the theorem, run and compared with what the document says; and each once more with one thing stated
// otherwise, so that it shows that it can tell.
#![tactic(auto)]

pub mod small;
pub mod study;
pub mod waves;

ghost use Rattle.std.specs.Prelude.{◌≡◌, length};

use boundary::LossyAbsorber;
use codec::floats;
use cpml::{Psi, absorber, memory};
use refusals::Refusal;
use std::io;
use std::io::Write;
use study::{Cells24, OneCell};

fn say(rt: &HostRuntime, what: &[u8], holds: bool, changed: bool) -> io::Result<()> {
    rt.stdout().write_all(what)?;
    if holds {
        rt.stdout().write_all(b": as stated")?;
    } else {
        rt.stdout().write_all(b": OTHERWISE")?;
    }
    if changed {
        rt.stdout().write_all(b", A CHANGE NOT SEEN\n")
    } else {
        rt.stdout().write_all(b", a change seen\n")
    }
}

// Equal in every bit, so that -0.0 is not 0.0.
fn same(x: f64, y: f64) -> bool {
    floats::bits_of(x) == floats::bits_of(y)
}

// The axes that the layer is active on, where it is asked for on all of a line of 24 cells.
fn active_axes(thickness: usize) -> Result<[bool; 3], Refusal> {
    let mut line = Cells24::new();
    let r = line.open(24)?;
    let given = [1.0; 156];
    let q = absorber::set_boundary_cpml(
        r,
        [true; 3],
        thickness,
        &given,
        &mut line.psi_e,
        &mut line.psi_h,
        &mut line.tables,
    )?;
    Ok(q.active)
}

// Whether it was accepted and is active on z or not, and on no other axis.
fn active_on_z(thickness: usize, stated: bool) -> bool {
    match active_axes(thickness) {
        Ok(axes) => !axes[0] & !axes[1] & (axes[2] == stated),
        Err(_) => false,
    }
}

fn cleared<'a>(which: Psi, psi_e: &'a [f64], psi_h: &'a [f64]) -> bool
    requires { (length psi_e.now ≡ 144) × (length psi_h.now ≡ 144) }
{
    memory::psi(which, psi_e, psi_h, 24)
        .iter()
        .all(|x| same(*x, 0.0))
}

fn all_cleared<'a>(psi_e: &'a [f64], psi_h: &'a [f64]) -> bool
    requires { (length psi_e.now ≡ 144) × (length psi_h.now ≡ 144) }
{
    let memories = [
        Psi::Exy,
        Psi::Exz,
        Psi::Eyz,
        Psi::Eyx,
        Psi::Ezx,
        Psi::Ezy,
        Psi::Hxy,
        Psi::Hxz,
        Psi::Hyz,
        Psi::Hyx,
        Psi::Hzx,
        Psi::Hzy,
    ];
    for which in memories {
        if !cleared(which, psi_e, psi_h) {
            return false;
        }
    }
    true
}

// Whether conducting walls clear all twelve memories of the line, the last number of which is then put to another.
fn memories_cleared(last: f64) -> Result<bool, Refusal> {
    let mut line = Cells24::new();
    let r = line.open(24)?;
    line.psi_e.fill(1.5);
    line.psi_h.fill(1.5);
    walling::set_boundary_conductor(r, &mut line.psi_e, &mut line.psi_h, &mut line.tables)?;
    line.psi_h[143] = last;
    Ok(all_cleared(&line.psi_e, &line.psi_h))
}

// Whether the lossy edge leaves sigma, 0.25, in a study of one cell.
fn sigma_kept(stated: f64) -> Result<bool, Refusal> {
    let a = LossyAbsorber {
        thickness: 9,
        order: 1,
        sigma_max: 8.0,
    };
    let mut cell = OneCell::new();
    let r = cell.open(1)?;
    cell.media[2] = 0.25;
    walling::set_boundary_lossy(
        r,
        a,
        &mut cell.psi_e,
        &mut cell.psi_h,
        &mut cell.tables,
        &mut cell.media,
    )?;
    Ok(same(cell.media[2], stated))
}

fn main(rt: HostRuntime) -> io::Result<()> {
    say(
        &rt,
        b"n 24, thickness 0 inactive",
        active_on_z(0, false),
        active_on_z(11, false),
    )?;
    say(
        &rt,
        b"n 24, thickness 11 active",
        active_on_z(11, true),
        active_on_z(12, true),
    )?;
    say(
        &rt,
        b"n 24, thickness 12 inactive",
        active_on_z(12, false),
        active_on_z(11, false),
    )?;
    say(
        &rt,
        b"all twelve memories cleared",
        memories_cleared(0.0).unwrap_or(false),
        memories_cleared(1.5).unwrap_or(false),
    )?;
    say(
        &rt,
        b"lossy, n 1, sigma kept",
        sigma_kept(0.25).unwrap_or(false),
        sigma_kept(0.5).unwrap_or(false),
    )?;
    say(
        &rt,
        b"a wave's line after one step and two",
        waves::wave_sent(3.0, 1000000000000000000.0, 1000000000000000000.0),
        waves::wave_sent(3.0, 1000000000000000000.0, 2000000000000000000.0),
    )?;
    say(
        &rt,
        b"a fresh save of 1,389 bytes",
        small::has_length(1389),
        small::has_length(1388),
    )?;
    say(
        &rt,
        b"1,388 of them are 13, 1,390 are 16",
        small::one_less_one_more(13),
        small::one_less_one_more(16),
    )
}
