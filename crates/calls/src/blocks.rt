// What the C functions share: the record that a block holds, and put back into it, answers put into their room, a material's bytes.
ghost use Rattle.std.specs.Prelude.{◌≡◌, true, length, IfOk};
ghost use Rattle.refusals.specs.Refusals.{code, value_or};
ghost use Rattle.grid.specs.declared.Clock.{Clock};
ghost use Rattle.grid.specs.declared.Record.{Record};
ghost use Rattle.grid.specs.Fault.{bad_study, first};
ghost use Rattle.block.specs.Block.{block_length, block_fine, block_record};
ghost use Rattle.calls.specs.Blocks.{block_after, clock_after, answered, axis_bits, material_fault, material_of, asked};

use dispersion::DispersiveMaterial;
use grid::{Clock, Record};
use heads::ML_LENGTH;
use materials::Put;
use refusals::{Refusal, require};

// The record that a block holds. Put in place of its calls, which would clear room for a `Result` of the record and copy it out of that, some 3 KiB each, in every
// call on a block.
#[inline(always)]
pub fn record_of(b: &[u8]) -> Result<Record, Refusal>
    ensures fault { code result ≡ first (block_fine b.now) bad_study 0 }
    ensures record { IfOk result (λ r. (r ≡ block_record b.now) × (block_fine b.now ≡ true) × (length b.now ≡ block_length)) }
{
    require(block::is_record(b), Refusal::BadStudy)?;
    Ok(block::get_record(b))
}

// The record that a call answered goes into the block where the call was accepted.
pub fn keep(b: &mut [u8], called: Result<Record, Refusal>) -> Result<(), Refusal>
    requires { length b.old ≡ block_length }
    ensures fault { code result ≡ code called }
    ensures block { (r : Record) → b.new ≡ block_after (code called) (value_or r called) b.old }
{
    block::put_record(b, called?);
    Ok(())
}

// The clock alone, where the call moved nothing else of the record.
pub fn keep_clock(b: &mut [u8], called: Result<Clock, Refusal>) -> Result<(), Refusal>
    requires { length b.old ≡ block_length }
    ensures fault { code result ≡ code called }
    ensures block { (c : Clock) → b.new ≡ clock_after (code called) (value_or c called) b.old }
{
    block::put_clock(b, called?);
    Ok(())
}

pub fn answer<T: Copy>(room: &mut [T], v: T)
    ensures { room.new ≡ answered v room.old }
{
    if 0 < room.len() {
        room[0] = v;
    }
}

pub fn axis_bits(axes: [bool; 3]) -> u32
    ensures { result ≡ axis_bits axes }
{
    u32::from(axes[0]) + 2 * u32::from(axes[1]) + 4 * u32::from(axes[2])
}

#[tactic(auto, unfolding(crate::specs::Blocks::material_fault, crate::specs::Blocks::material_of))]
pub fn get_material(m: &[u8]) -> Result<DispersiveMaterial, Refusal>
    ensures fault { code result ≡ material_fault m.now }
    ensures material { IfOk result (λ d. d ≡ material_of m.now) }
{
    require(m.len() == ML_LENGTH, Refusal::BadStore)?;
    let n = reads::get_ml(m, 0);
    require(shapes::ml_shaped(n), Refusal::BadStudy)?;
    Ok(heads::ml_of(n))
}

// What is put into a box, as a C caller names it.
pub fn put_asked(library: bool, id: u32, eps_r: f64, mu_r: f64, sigma: f64) -> Put
    ensures { result ≡ asked library id eps_r mu_r sigma }
{
    if library {
        Put::Library { id }
    } else {
        Put::Numbers { eps_r, mu_r, sigma }
    }
}
