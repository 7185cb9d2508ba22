// How long each lent store has to be, refusal 4, and stores filled with one number.
ghost use Rattle.std.specs.Prelude.{◌≡◌, ◌+◌, ◌≤◌, length, replicate, IfOk};
ghost use Rattle.codec.specs.Lists.{put};
ghost use Rattle.grid.specs.Inner.Sound.{Sound};
ghost use Rattle.refusals.specs.Refusals.{code};
ghost use Rattle.grid.specs.Fault.{fault_of};
ghost use Rattle.grid.specs.Stores.{stores, store_lengths, lengths_of, fault_with};

use crate::{Record, fault};
use refusals::{Refusal, require};

// The lengths of the nine stores, in document 01's order of them.
#[derive(Clone, Copy, PartialEq, Eq)]
pub struct Lengths {
    pub electric: usize,
    pub magnetic: usize,
    pub media: usize,
    pub psi_e: usize,
    pub psi_h: usize,
    pub tables: usize,
    pub poles: usize,
    pub aux: usize,
    pub ids: usize,
}

pub fn store_lengths(r: Record) -> Lengths
    requires { Sound r }
    ensures { result ≡ store_lengths r }
{
    let n = r.nx * r.ny * r.nz;
    let three = 3 * n;
    let six = 6 * n;
    Lengths {
        electric: three,
        magnetic: three,
        media: three,
        psi_e: six,
        psi_h: six,
        tables: 6 * (r.nx + r.ny + r.nz),
        poles: (6 * r.pole_slots + 3) * n,
        aux: 2 * (r.nz + 48),
        ids: n,
    }
}

// The lengths of what is lent.
// kept: nine slices and no struct of them, here and in each call that is lent them (docs/DECISIONS.md, D-61).
pub fn lengths_of(
    electric: &[f64],
    magnetic: &[f64],
    media: &[f64],
    psi_e: &[f64],
    psi_h: &[f64],
    tables: &[f64],
    poles: &[f64],
    aux: &[f64],
    ids: &[u32],
) -> Lengths
    ensures { result ≡ lengths_of (stores electric.now magnetic.now media.now psi_e.now psi_h.now tables.now poles.now aux.now ids.now) }
{
    Lengths {
        electric: electric.len(),
        magnetic: magnetic.len(),
        media: media.len(),
        psi_e: psi_e.len(),
        psi_h: psi_h.len(),
        tables: tables.len(),
        poles: poles.len(),
        aux: aux.len(),
        ids: ids.len(),
    }
}

// How long each store has to be, of a record without fault.
pub fn judge(r: Record) -> Result<Lengths, Refusal>
    ensures fault { code result ≡ fault_of r }
    ensures lengths { IfOk result (λ l. (l ≡ store_lengths r) × Sound r) }
{
    fault::fault_of(r)?;
    Ok(store_lengths(r))
}

// Refusals 1 to 3 of the record, then 4 by the lengths of all nine stores.
pub fn fault_with(r: Record, lent: Lengths) -> Result<(), Refusal>
    ensures { code result ≡ fault_with r lent }
{
    let expected = judge(r)?;
    require(lent == expected, Refusal::BadStore)
}

// v from at on, n times.
// kept: a store and a place in it: `s[at..at + n].fill(v)` is `put` only by a law at each call (docs/DECISIONS.md, D-61).
pub fn fill<T: Copy>(s: &mut [T], at: usize, n: usize, v: T)
    requires { at + n ≤ length s.old }
    ensures { s.new ≡ put s.old at (replicate n v) }
{
    for i in 0..n {
        s[at + i] = v;
    }
}
