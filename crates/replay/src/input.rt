// The list, read from standard input part by part. What is not there is None.
ghost use Rattle.std.specs.Prelude.{◌+◌, ◌≤◌};

use codec::numbers::get_u32;
use codec::stores;
use codec::stores::Element;
use std::io::Read;

// The bytes of the longest store: the poles of 32 cells with 4 slots, (6 * 4 + 3) * 32 numbers.
const LONGEST: usize = 6912;

// How many elements each store of a study has, and how many samples there are.
#[derive(Clone, Copy)]
pub struct Counts {
    pub e: usize,
    pub h: usize,
    pub media: usize,
    pub psi_e: usize,
    pub psi_h: usize,
    pub tables: usize,
    pub poles: usize,
    pub aux: usize,
    pub ids: usize,
    pub samples: usize,
}

// As many bytes as b is long.
pub fn read_bytes(rt: &HostRuntime, b: &mut [u8]) -> Option<()> {
    rt.stdin().read_exact(b).ok()
}

// How many studies are to come.
pub fn list_length(rt: &HostRuntime) -> Option<u32> {
    let mut b = [0u8; 4];
    read_bytes(rt, &mut b)?;
    Some(get_u32(&b, 0))
}

fn count(b: &[u8; 40], at: usize) -> usize
    requires { at + 4 ≤ 40 }
{
    get_u32(b, at) as usize
}

pub fn read_counts(rt: &HostRuntime) -> Option<Counts> {
    let mut b = [0u8; 40];
    read_bytes(rt, &mut b)?;
    Some(Counts {
        e: count(&b, 0),
        h: count(&b, 4),
        media: count(&b, 8),
        psi_e: count(&b, 12),
        psi_h: count(&b, 16),
        tables: count(&b, 20),
        poles: count(&b, 24),
        aux: count(&b, 28),
        ids: count(&b, 32),
        samples: count(&b, 36),
    })
}

pub fn read_store<T: Element>(rt: &HostRuntime, xs: &mut [T]) -> Option<()> {
    let size = T::WIDTH.checked_mul(xs.len())?;
    if LONGEST < size {
        return None;
    }
    let mut b = [0u8; LONGEST];
    read_bytes(rt, &mut b[..size])?;
    stores::get_all(&b, 0, xs);
    Some(())
}
