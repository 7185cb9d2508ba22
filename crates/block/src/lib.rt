// The study record as one block of bytes: GH's payload, then sixteen entries for its materials.
#![tactic(auto)]

ghost use Rattle.std.specs.Prelude.{true, cond, ◌≡◌, ℕ, ◌+◌, ◌≤◌, ◌<◌, ltb, length, replicate};
ghost use Rattle.codec.specs.Lists.{put};
ghost use Rattle.cells.specs.Cells.{joined};
ghost use Rattle.grid.specs.Fault.{all_below};
ghost use Rattle.heads.specs.Numbers.{gh_length, ml_length};
ghost use Rattle.heads.specs.Payloads.{material_bytes, head_of, count_of};
ghost use Rattle.block.specs.Block.{block_length, entry_bytes, block_of, clock_put, all_zero, entry_fine, block_fine, block_record};

use codec::{floats, numbers};
use dispersion::DispersiveMaterial;
use grid::{Clock, Record};
use heads::{GH_LENGTH, ML_LENGTH};
use reads::entries;

const ENTRIES: usize = 16;

pub const BLOCK_LENGTH: usize = GH_LENGTH + ENTRIES * ML_LENGTH;

// Time and steps are twelve bytes of GH; the constants follow them.
const CLOCK_PLACE: usize = 61;

// Without a branch, so that it is compiled to vector code.
fn all_zero(s: &[u8]) -> bool
    ensures { result ≡ all_zero s.now }
{
    let mut zero = true;
    for x in s {
        zero &= *x == 0;
    }
    zero
}

fn entry_fine(b: &[u8], i: usize, count: usize) -> bool
    requires { (length b.now ≡ block_length) × (i < 16) × (count ≡ count_of (head_of b.now)) }
    ensures { result ≡ entry_fine b.now i }
{
    let at = GH_LENGTH + ML_LENGTH * i;
    if i < count {
        let n = reads::get_ml(b, at);
        return shapes::ml_shaped(n);
    }
    let end = at + ML_LENGTH;
    all_zero(&b[at..end])
}

fn entries_fine(b: &[u8], count: usize) -> bool
    requires { (length b.now ≡ block_length) × (count ≡ count_of (head_of b.now)) }
    ensures { result ≡ all_below (entry_fine b.now) 16 }
{
    for i in 0..ENTRIES {
        if !entry_fine(b, i, count) {
            return false;
        }
    }
    true
}

// Whether these bytes are a record's, whatever faults that record may have.
pub fn is_record(b: &[u8]) -> bool
    ensures { result ≡ block_fine b.now }
{
    if b.len() != BLOCK_LENGTH {
        return false;
    }
    let n = reads::get_gh(b, 0);
    shapes::gh_shaped(n) & entries_fine(b, n[12] as usize)
}

// How many of the entries are counted.
// kept: no `min`, and below no `fill`: each method of the library is one more that the test on the source has to know, and it lets the room be written a place at a time alone (docs/DECISIONS.md, D-52).
fn counted_of(count: usize) -> usize
    ensures { (result ≤ 16) × ((i : ℕ) → i < 16 → ltb i result ≡ ltb i count) }
{
    if count < ENTRIES { count } else { ENTRIES }
}

pub fn get_record(b: &[u8]) -> Record
    requires { block_fine b.now ≡ true }
    ensures { result ≡ block_record b.now }
{
    let n = reads::get_gh(b, 0);
    let count = counted_of(n[12] as usize);
    let materials = entries::get_materials(b, GH_LENGTH, count);
    heads::gh_of(n, materials)
}

// The bytes of an entry that is not counted.
fn put_zeros(b: &mut [u8], at: usize)
    requires { at + ml_length ≤ length b.old }
    ensures { b.new ≡ put b.old at (replicate ml_length 0) }
{
    for i in 0..ML_LENGTH {
        b[at + i] = 0;
    }
}

// kept: the material of an entry that is not counted stands in the record too, so that an Option of it would be made of a flag and a material here.
fn put_entry(b: &mut [u8], at: usize, counted: bool, m: DispersiveMaterial)
    requires { at + ml_length ≤ length b.old }
    ensures { b.new ≡ put b.old at (cond counted (material_bytes m) (replicate ml_length 0)) }
{
    if counted {
        payloads::put_ml(b, at, m);
    } else {
        put_zeros(b, at);
    }
}

fn put_entries(b: &mut [u8], r: Record)
    requires { length b.old ≡ block_length }
    ensures { b.new ≡ put b.old gh_length (joined 16 (entry_bytes r)) }
{
    let count = r.material_count;
    for i in 0..ENTRIES {
        let m = r.materials[i];
        put_entry(b, GH_LENGTH + ML_LENGTH * i, i < count, m);
    }
}

pub fn put_record(b: &mut [u8], r: Record)
    requires { length b.old ≡ block_length }
    ensures { b.new ≡ block_of r }
{
    payloads::put_gh(b, 0, r);
    put_entries(b, r);
}

// The clock alone, where nothing else of the record has changed.
pub fn put_clock(b: &mut [u8], c: Clock)
    requires { length b.old ≡ block_length }
    ensures { b.new ≡ clock_put c b.old }
{
    floats::put_f64(b, CLOCK_PLACE, c.time);
    numbers::put_u32(b, CLOCK_PLACE + 8, c.steps);
}
