// The eleven records, each written straight to its place.
#![tactic(auto)]

ghost use Rattle.std.specs.Prelude.{◌≡◌, cond, [], ◌∷◌, ◌+◌, ◌*◌, ◌≤◌, ◌<◌, length};
ghost use Rattle.codec.specs.Lists.{put};
ghost use Rattle.codec.specs.Bytes.{bytes_of, floats_bytes, ids_bytes};
ghost use Rattle.grid.specs.Stores.{stores};
ghost use Rattle.cpml.specs.Memory.{memory_of};
ghost use Rattle.heads.specs.Numbers.{ml_length};
ghost use Rattle.heads.specs.Payloads.{head_bytes};
ghost use Rattle.format.specs.Records.{piece, frames};
ghost use Rattle.format.specs.Save.{mark_gh, mark_ml, mark_ci, mark_cm, mark_fe, mark_fh, mark_le, mark_lh, mark_lt, mark_pp, mark_ax, list_bytes, save_bytes};
ghost use Rattle.puts.specs.Inner.Places.{list_place, stores_place};
ghost use Rattle.puts.specs.Inner.Room.{Roomy};

use codec::stores::Element;
use codec::{frame, stores};
use cpml::{Psi, memory};
use format::{AX, CI, CM, FE, FH, GH, LE, LH, LT, ML, PP};
use grid::Record;
use heads::{GH_LENGTH, ML_LENGTH};

// Where ML's record begins, behind GH's, and where its materials do.
const LIST_PLACE: usize = 6 + GH_LENGTH;

pub const ENTRIES_PLACE: usize = LIST_PLACE + 6;

// A store's record; the place after it.
fn put_store<T: Element>(out: &mut [u8], at: usize, mark: u16, xs: &[T]) -> usize
    requires { (at + (6 + T.WIDTH * length xs.now) ≤ length out.old) × (T.WIDTH * length xs.now < 4294967296) }
    ensures { (result ≡ at + (6 + T.WIDTH * length xs.now)) × (out.new ≡ put out.old at (frames (piece mark (bytes_of T.WIDTH T.number xs.now) ∷ []))) }
{
    let n = T::WIDTH * xs.len();
    frame::put_frame(out, at, mark, n as u32);
    stores::put_all(out, at + 6, xs);
    at + (6 + n)
}

// The counted materials.
fn put_list(out: &mut [u8], at: usize, r: Record)
    requires { (at + ml_length * r.material_count ≤ length out.old) × (r.material_count ≤ 16) }
    ensures { out.new ≡ put out.old at (list_bytes r) }
{
    for i in 0..r.material_count {
        payloads::put_ml(out, at + ML_LENGTH * i, r.materials[i]);
    }
}

fn put_head(out: &mut [u8], r: Record)
    requires { list_place ≤ length out.old }
    ensures { out.new ≡ put out.old 0 (frames (piece mark_gh (head_bytes r) ∷ [])) }
{
    frame::put_frame(out, 0, GH, GH_LENGTH as u32);
    payloads::put_gh(out, 6, r);
}

fn put_materials(out: &mut [u8], r: Record) -> usize
    requires { (stores_place r.material_count ≤ length out.old) × (r.material_count ≤ 16) }
    ensures { (result ≡ stores_place r.material_count) × (out.new ≡ put out.old list_place (frames (piece mark_ml (list_bytes r) ∷ []))) }
{
    let n = ML_LENGTH * r.material_count;
    frame::put_frame(out, LIST_PLACE, ML, n as u32);
    put_list(out, ENTRIES_PLACE, r);
    ENTRIES_PLACE + n
}

// CI, CM, FE, FH.
fn put_cells(out: &mut [u8], at: usize, ids: &[u32], media: &[f64], e: &[f64], h: &[f64]) -> usize
    requires { (at + (24 + 4 * length ids.now + 8 * length media.now + 8 * length e.now + 8 * length h.now) ≤ length out.old) × (length ids.now ≤ 28311552) × (length media.now ≤ 28311552) × (length e.now ≤ 28311552) × (length h.now ≤ 28311552) }
    ensures { (result ≡ at + (24 + 4 * length ids.now + 8 * length media.now + 8 * length e.now + 8 * length h.now)) × (out.new ≡ put out.old at (frames (piece mark_ci (ids_bytes ids.now) ∷ piece mark_cm (floats_bytes media.now) ∷ piece mark_fe (floats_bytes e.now) ∷ piece mark_fh (floats_bytes h.now) ∷ []))) }
{
    let p = put_store(out, at, CI, ids);
    let q = put_store(out, p, CM, media);
    let s = put_store(out, q, FE, e);
    put_store(out, s, FH, h)
}

// One memory of the layer.
fn put_memory<'a>(
    out: &mut [u8],
    at: usize,
    which: Psi,
    psi_e: &'a [f64],
    psi_h: &'a [f64],
    n: usize,
)
    requires { (at + 8 * n ≤ length out.old) × (length psi_e.now ≡ 6 * n) × (length psi_h.now ≡ 6 * n) }
    ensures { out.new ≡ put out.old at (floats_bytes (memory_of which psi_e.now psi_h.now n)) }
{
    let m = memory::psi(which, psi_e, psi_h, n);
    stores::put_all(out, at, m);
}

// The six memories of the electric or of the magnetic field, in their order: the whole store.
fn put_six<'a>(
    out: &mut [u8],
    at: usize,
    electric: bool,
    psi_e: &'a [f64],
    psi_h: &'a [f64],
    n: usize,
)
    requires { (at + 48 * n ≤ length out.old) × (length psi_e.now ≡ 6 * n) × (length psi_h.now ≡ 6 * n) }
    ensures { out.new ≡ put out.old at (floats_bytes (cond electric psi_e.now psi_h.now)) }
{
    for k in 0..6 {
        let which = memory::in_order(electric, k);
        put_memory(out, at + 8 * (k * n), which, psi_e, psi_h, n);
    }
}

// A record of one field's memories; the place after it.
fn put_memories<'a>(
    out: &mut [u8],
    at: usize,
    mark: u16,
    electric: bool,
    psi_e: &'a [f64],
    psi_h: &'a [f64],
    n: usize,
) -> usize
    requires { (at + (6 + 48 * n) ≤ length out.old) × (length psi_e.now ≡ 6 * n) × (length psi_h.now ≡ 6 * n) × (6 * n ≤ 28311552) }
    ensures { (result ≡ at + (6 + 48 * n)) × (out.new ≡ put out.old at (frames (piece mark (floats_bytes (cond electric psi_e.now psi_h.now)) ∷ []))) }
{
    let long = 48 * n;
    frame::put_frame(out, at, mark, long as u32);
    put_six(out, at + 6, electric, psi_e, psi_h, n);
    at + (6 + long)
}

// LE, LH, LT, of n cells.
fn put_layer<'a>(
    out: &mut [u8],
    at: usize,
    psi_e: &'a [f64],
    psi_h: &'a [f64],
    tables: &[f64],
    n: usize,
) -> usize
    requires { (at + (18 + 8 * length psi_e.now + 8 * length psi_h.now + 8 * length tables.now) ≤ length out.old) × (length psi_e.now ≡ 6 * n) × (length psi_h.now ≡ 6 * n) × (6 * n ≤ 28311552) × (length tables.now ≤ 28311552) }
    ensures { (result ≡ at + (18 + 8 * length psi_e.now + 8 * length psi_h.now + 8 * length tables.now)) × (out.new ≡ put out.old at (frames (piece mark_le (floats_bytes psi_e.now) ∷ piece mark_lh (floats_bytes psi_h.now) ∷ piece mark_lt (floats_bytes tables.now) ∷ []))) }
{
    let p = put_memories(out, at, LE, true, psi_e, psi_h, n);
    let q = put_memories(out, p, LH, false, psi_e, psi_h, n);
    put_store(out, q, LT, tables)
}

// PP, AX.
fn put_ends(out: &mut [u8], at: usize, poles: &[f64], aux: &[f64])
    requires { (at + (12 + 8 * length poles.now + 8 * length aux.now) ≤ length out.old) × (length poles.now ≤ 28311552) × (length aux.now ≤ 28311552) }
    ensures { out.new ≡ put out.old at (frames (piece mark_pp (floats_bytes poles.now) ∷ piece mark_ax (floats_bytes aux.now) ∷ [])) }
{
    let p = put_store(out, at, PP, poles);
    put_store(out, p, AX, aux);
}

// kept: nine slices and no struct of them (docs/DECISIONS.md, D-61).
pub fn put_save<'a>(
    out: &mut [u8],
    r: Record,
    e: &[f64],
    h: &[f64],
    media: &[f64],
    psi_e: &'a [f64],
    psi_h: &'a [f64],
    tables: &[f64],
    poles: &[f64],
    aux: &[f64],
    ids: &[u32],
)
    requires { Roomy r.material_count (length e.now) (length h.now) (length media.now) (length psi_e.now) (length psi_h.now) (length tables.now) (length poles.now) (length aux.now) (length ids.now) (length out.old) }
    ensures { out.new ≡ put out.old 0 (save_bytes r (stores e.now h.now media.now psi_e.now psi_h.now tables.now poles.now aux.now ids.now)) }
{
    put_head(out, r);
    let p = put_materials(out, r);
    let q = put_cells(out, p, ids, media, e, h);
    let s = put_layer(out, q, psi_e, psi_h, tables, ids.len());
    put_ends(out, s, poles, aux);
}
