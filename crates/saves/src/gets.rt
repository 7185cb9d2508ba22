// The study that a save without fault says.
ghost use Rattle.std.specs.Prelude.{◌≡◌, ◌+◌, ◌*◌, ◌≤◌, length, drop};
ghost use Rattle.codec.specs.Bytes.{elements_of};
ghost use Rattle.grid.specs.Stores.{stores, lengths_of};
ghost use Rattle.format.specs.Rewind.{is_old, bytes_fault, read_record};
ghost use Rattle.saves.specs.Inner.Places.{entries_from, stores_from, stores_at};

use codec::stores;
use codec::stores::Element;
use grid::Record;
use heads::{ML_LENGTH, OLD_LENGTH};
use puts::ENTRIES_PLACE;
use reads::entries;

// Where the materials begin, behind the six bytes of their record and GH's.
fn entries_from(old: bool) -> usize
    ensures { (result ≡ entries_from old) × (result ≤ 86) }
{
    if old { OLD_LENGTH + 12 } else { ENTRIES_PLACE }
}

pub fn get_record(b: &[u8]) -> Record
    requires { bytes_fault b.now ≡ 0 }
    ensures { result ≡ read_record b.now }
{
    let old = judge::is_old(b);
    let g = judge::head_at(b, 6, old);
    let at = entries_from(old);
    let materials = entries::get_materials(b, at, g[12] as usize);
    heads::gh_of(g, materials)
}

// Where the records of the stores begin.
pub fn stores_from(b: &[u8], materials: usize) -> usize
    requires { materials ≤ 16 }
    ensures { (result ≡ stores_from (is_old b.now) materials) × (result ≤ 2086) }
{
    let old = judge::is_old(b);
    let at = entries_from(old);
    at + ML_LENGTH * materials
}

// A store from its record that begins at `at`; the place after it.
fn get_store<T: Element>(b: &[u8], at: usize, s: &mut [T]) -> usize
    requires { at + (6 + T.WIDTH * length s.old) ≤ length b.now }
    ensures next { result ≡ at + (6 + T.WIDTH * length s.old) }
    ensures store { s.new ≡ elements_of T.WIDTH T.element (length s.old) (drop (at + 6) b.now) }
{
    stores::get_all(b, at + 6, s);
    at + (6 + T::WIDTH * s.len())
}

// The nine stores, from the records that begin at `at`.
pub fn get_stores(
    b: &[u8],
    at: usize,
    e: &mut [f64],
    h: &mut [f64],
    media: &mut [f64],
    psi_e: &mut [f64],
    psi_h: &mut [f64],
    tables: &mut [f64],
    poles: &mut [f64],
    aux: &mut [f64],
    ids: &mut [u32],
)
    requires { at + (54 + 4 * length ids.old + 8 * length media.old + 8 * length e.old + 8 * length h.old + 8 * length psi_e.old + 8 * length psi_h.old + 8 * length tables.old + 8 * length poles.old + 8 * length aux.old) ≤ length b.now }
    ensures { stores e.new h.new media.new psi_e.new psi_h.new tables.new poles.new aux.new ids.new ≡ stores_at (lengths_of (stores e.old h.old media.old psi_e.old psi_h.old tables.old poles.old aux.old ids.old)) b.now at }
{
    let at = get_store(b, at, ids);
    let at = get_store(b, at, media);
    let at = get_store(b, at, e);
    let at = get_store(b, at, h);
    let at = get_store(b, at, psi_e);
    let at = get_store(b, at, psi_h);
    let at = get_store(b, at, tables);
    let at = get_store(b, at, poles);
    get_store(b, at, aux);
}
