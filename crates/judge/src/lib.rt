// The first fault of a save's bytes, record by record.
#![tactic(auto)]

ghost use Rattle.std.specs.Prelude.{◌≡◌, ◌∷◌, ◌+◌, ◌*◌, ◌≤◌, length, drop, get_or, IfOk};
ghost use Rattle.std.specs.List.{All};
ghost use Rattle.refusals.specs.Refusals.{code};
ghost use Rattle.frames.specs.Taking.{frame_of};
ghost use Rattle.heads.specs.Numbers.{ml_length, ml_fine};
ghost use Rattle.heads.specs.Payloads.{head_by, count_of, entry_at};
ghost use Rattle.grid.specs.Fault.{all_below, fault_of};
ghost use Rattle.grid.specs.Stores.{store_lengths};
ghost use Rattle.format.specs.Records.{record_fault, records_fault};
ghost use Rattle.format.specs.Rewind.{is_old, size_by, bare, head_good, list_good, head_record, list_record, ids_record, floats_record, store_records, bytes_fault};
ghost use Rattle.judge.specs.Inner.Places.{floats_records, Small};

use codec::{numbers, stores};
use dispersion::DispersiveMaterial;
use frames::Frame;
use grid::stores::Lengths;
use grid::{Record, fault};
use heads::{GH_LENGTH, ML_LENGTH, OLD_LENGTH};
use reads::entries;
use refusals::{Refusal, require};

// Whether these bytes are a save from before the constants: the length field of the first record says 73.
#[tactic(auto, unfolding(format::specs::Rewind::is_old))]
pub fn is_old(b: &[u8]) -> bool
    ensures { result ≡ is_old b.now }
{
    6 <= b.len() && numbers::get_u32(b, 2) == OLD_LENGTH as u32
}

fn size_by(old: bool) -> u32
    ensures { result ≡ size_by old }
{
    if old {
        OLD_LENGTH as u32
    } else {
        GH_LENGTH as u32
    }
}

// GH's numbers at either length.
pub fn head_at(b: &[u8], at: usize, old: bool) -> [u64; 27]
    requires { at + size_by old ≤ length b.now }
    ensures { result ≡ head_by old (drop at b.now) }
{
    if old {
        reads::get_old_gh(b, at)
    } else {
        reads::get_gh(b, at)
    }
}

// The record that GH alone says: each material vacuum.
#[tactic(auto, unfolding(format::specs::Rewind::bare))]
fn bare_record(g: [u64; 27]) -> Record
    requires { get_or g 25 0 ≤ 4294967295 }
    ensures { result ≡ bare g }
{
    heads::gh_of(g, [DispersiveMaterial::vacuum(); 16])
}

#[tactic(auto, unfolding(format::specs::Rewind::head_good))]
fn head_good(g: [u64; 27]) -> bool
    requires { get_or g 25 0 ≤ 4294967295 }
    ensures { result ≡ head_good g }
{
    shapes::gh_fine(g) & fault::fault_of(bare_record(g)).is_ok()
}

// kept: three functions of one shape, this one, `take_list` and `take_floats`: what judges a payload needs its bytes to be there, which a closure would have to be told.
fn take_head(b: &[u8], old: bool) -> Result<Frame, Refusal>
    ensures fault { code result ≡ record_fault (head_record old) b.now }
    ensures frame { IfOk result (λ f. f ≡ frame_of 0 (size_by old)) }
{
    let f = frames::take_at(b, 0, format::GH, size_by(old))?;
    let g = head_at(b, f.start, old);
    require(head_good(g), Refusal::BadRecord)?;
    Ok(f)
}

// Whether each of the materials from at on is fine.
fn entries_fine(b: &[u8], at: usize, count: usize) -> bool
    requires { (at + ml_length * count ≤ length b.now) × (count ≤ 16) }
    ensures { result ≡ all_below (λ i. ml_fine (entry_at (drop at b.now) i)) count }
{
    for i in 0..count {
        if !shapes::ml_fine(reads::get_ml(b, at + ML_LENGTH * i)) {
            return false;
        }
    }
    true
}

#[tactic(auto, unfolding(format::specs::Rewind::list_good))]
fn list_good(b: &[u8], at: usize, g: [u64; 27]) -> bool
    requires { (at + ml_length * count_of g ≤ length b.now) × (count_of g ≤ 16) × (get_or g 25 0 ≤ 4294967295) }
    ensures { result ≡ list_good g (drop at b.now) }
{
    let count = g[12] as usize;
    let materials = entries::get_materials(b, at, count);
    let r = heads::gh_of(g, materials);
    entries_fine(b, at, count) & fault::fault_of(r).is_ok()
}

fn take_list(b: &[u8], at: usize, g: [u64; 27]) -> Result<Frame, Refusal>
    requires { (at ≤ length b.now) × (count_of g ≤ 16) × (get_or g 25 0 ≤ 4294967295) }
    ensures fault { code result ≡ record_fault (list_record g) (drop at b.now) }
    ensures frame { IfOk result (λ f. f ≡ frame_of at (ml_length * count_of g)) }
{
    let n = ML_LENGTH * g[12] as usize;
    let f = frames::take_at(b, at, format::ML, n as u32)?;
    require(list_good(b, f.start, g), Refusal::BadRecord)?;
    Ok(f)
}

// Ids may be any number.
#[tactic(auto, unfolding(format::specs::Records::record_fault), using(crate::proofs::Judged::frame_only))]
fn take_ids(b: &[u8], at: usize, n: usize) -> Result<Frame, Refusal>
    requires { (at ≤ length b.now) × (n ≤ 28311552) }
    ensures fault { code result ≡ record_fault (ids_record n) (drop at b.now) }
    ensures frame { IfOk result (λ f. f ≡ frame_of at (4 * n)) }
{
    frames::take_at(b, at, format::CI, (4 * n) as u32)
}

fn take_floats(b: &[u8], at: usize, mark: u16, n: usize) -> Result<Frame, Refusal>
    requires { (at ≤ length b.now) × (n ≤ 28311552) }
    ensures fault { code result ≡ record_fault (floats_record mark n) (drop at b.now) }
    ensures frame { IfOk result (λ f. f ≡ frame_of at (8 * n)) }
{
    let f = frames::take_at(b, at, mark, (8 * n) as u32)?;
    require(stores::check_f64s(b, f.start, n), Refusal::BadRecord)?;
    Ok(f)
}

// Records of floats from start on, by their marks and counts, then nothing more.
fn floats_fault(b: &[u8], start: usize, records: &[(u16, usize)]) -> Result<(), Refusal>
    requires { (start ≤ length b.now) × All (λ r. r.1 ≤ 28311552) records.now }
    ensures { code result ≡ records_fault (floats_records records.now) (drop start b.now) }
{
    let mut at = start;
    for &(mark, n) in records {
        at = take_floats(b, at, mark, n)?.next;
    }
    require(at == b.len(), Refusal::Trailing)
}

// The nine stores.
fn stores_fault(b: &[u8], at: usize, n: Lengths) -> Result<(), Refusal>
    requires { (at ≤ length b.now) × Small n }
    ensures { code result ≡ records_fault (store_records n) (drop at b.now) }
{
    let records = [
        (format::CM, n.media),
        (format::FE, n.electric),
        (format::FH, n.magnetic),
        (format::LE, n.psi_e),
        (format::LH, n.psi_h),
        (format::LT, n.tables),
        (format::PP, n.poles),
        (format::AX, n.aux),
    ];
    let ids = take_ids(b, at, n.ids)?;
    floats_fault(b, ids.next, &records)
}

// What follows GH, whose numbers are g.
fn rest_fault(b: &[u8], at: usize, g: [u64; 27]) -> Result<(), Refusal>
    requires { (at ≤ length b.now) × (get_or g 25 0 ≤ 4294967295) × (fault_of (bare g) ≡ 0) }
    ensures { code result ≡ records_fault (list_record g ∷ store_records (store_lengths (bare g))) (drop at b.now) }
{
    let list = take_list(b, at, g)?;
    let lengths = grid::stores::store_lengths(bare_record(g));
    stores_fault(b, list.next, lengths)
}

pub fn bytes_fault(b: &[u8]) -> Result<(), Refusal>
    ensures { code result ≡ bytes_fault b.now }
{
    let old = is_old(b);
    let head = take_head(b, old)?;
    let g = head_at(b, head.start, old);
    rest_fault(b, head.next, g)
}
