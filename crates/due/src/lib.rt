// Whether a study may take its next steps, and the clock after one.
#![tactic(auto)]

ghost use Rattle.std.specs.Prelude.{◌≡◌, ◌+◌, ◌<◌, leb, ltb};
ghost use Rattle.refusals.specs.Refusals.{code};
ghost use Rattle.codec.specs.Lists.{every};
ghost use Rattle.due.specs.Due.{fresh_ids, step_fault, ticked, last_step};

use grid::stores::Lengths;
use grid::{Clock, Record, stores};
use refusals::{Refusal, require};

// Whether the clock has n steps left.
fn has_left(steps: u32, n: usize) -> bool
    ensures { result ≡ leb (steps + n) last_step }
{
    n <= 4294967295 - steps as usize
}

// Without a branch, so that it is compiled to vector code.
fn all_below(ids: &[u32], b: usize) -> bool
    ensures { result ≡ every (λ id. ltb id b) ids.now }
{
    let mut below = true;
    for id in ids {
        below &= (*id as usize) < b;
    }
    below
}

#[tactic(auto, unfolding(crate::specs::Due::fresh_ids))]
fn ids_fresh(built: usize, ids: &[u32]) -> bool
    ensures { result ≡ fresh_ids built ids.now }
{
    built == 0 || all_below(ids, built)
}

// Whether n steps may be taken.
#[tactic(auto, unfolding(crate::specs::Due::step_fault), using(grid::proofs::Settled::own_fault, grid::proofs::Settled::later_fault))]
pub fn step_fault(r: Record, l: Lengths, ids: &[u32], n: usize) -> Result<(), Refusal>
    ensures { code result ≡ step_fault r l ids.now n }
{
    stores::fault_with(r, l)?;
    require(ids_fresh(r.built_count, ids), Refusal::StaleMaterial)?;
    require(has_left(r.clock.steps, n), Refusal::SpentClock)
}

pub fn tick(r: Record) -> Clock
    requires { r.clock.steps < last_step }
    ensures { result ≡ (ticked r).clock }
{
    Clock {
        time: r.clock.time + r.spacings.dt,
        steps: r.clock.steps + 1,
    }
}
