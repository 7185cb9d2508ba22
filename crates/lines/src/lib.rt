// The listing of a save: its study in lines of text, or the number of its refusal.
#![tactic(auto)]

mod fields;
mod text;

ghost use Rattle.std.specs.Prelude.{◌≡◌, ◌≤◌, length, IfOk};
ghost use Rattle.refusals.specs.Refusals.{number, code};
ghost use Rattle.codec.specs.Lists.{put};
ghost use Rattle.grid.specs.Inner.Sound.{Sound};
ghost use Rattle.format.specs.Rewind.{read_record, read_stores};
ghost use Rattle.lines.specs.Listing.{fits_listing, list_fault, head_line, study_lines, refused_line, listing};
ghost use Rattle.lines.specs.Inner.Places.{Room, Puts, sizes_text, fields_of};

use fields::{Fields, Saved};
use grid::Record;
use refusals::{Refusal, require};
use saves::gets;
use text::{BLANK, NEWLINE, Text};

pub const MOST_BYTES: usize = 24576;

pub const MOST_CELLS: usize = 64;

pub const MOST_SLOTS: usize = 1;

// 77 bytes for the head's line and 135 for each of 64 cells.
pub const ROOM: usize = 8717;

#[tactic(auto, unfolding(crate::specs::Listing::fits_listing))]
fn fits_listing(r: Record) -> bool
    requires { Sound r }
    ensures { result ≡ fits_listing r }
{
    (r.nx * r.ny * r.nz <= MOST_CELLS) & (r.pole_slots <= MOST_SLOTS)
}

// The study of a save that is listed, or the first fault.
#[tactic(auto, unfolding(crate::specs::Listing::list_fault), using(grid::proofs::Settled::own_fault, grid::proofs::Settled::later_fault))]
fn listed(b: &[u8]) -> Result<Record, Refusal>
    ensures fault { code result ≡ list_fault b.now }
    ensures study { IfOk result (λ r. (r ≡ read_record b.now) × (list_fault b.now ≡ 0)) }
{
    require(b.len() <= MOST_BYTES, Refusal::BadStore)?;
    judge::bytes_fault(b)?;
    let r = gets::get_record(b);
    require(fits_listing(r), Refusal::BadStore)?;
    Ok(r)
}

fn put_refusal(text: &mut Text, f: Refusal)
    requires { Room 19 text.old }
    ensures { Puts 19 text.old (refused_line (number f)) text.new }
{
    text.put_word(b"refused", BLANK);
    text.put_number(f.number(), NEWLINE);
}

fn put_sizes(text: &mut Text, r: Record)
    requires { Sound r × Room 39 text.old }
    ensures { Puts 39 text.old (sizes_text r.nx r.ny r.nz) text.new }
{
    text.put_word(b"study", BLANK);
    text.put_number(r.nx as u32, BLANK);
    text.put_number(r.ny as u32, BLANK);
    text.put_number(r.nz as u32, BLANK);
}

fn put_head(text: &mut Text, r: Record)
    requires { Sound r × Room 77 text.old }
    ensures { Puts 77 text.old (head_line r.nx r.ny r.nz r.clock.steps r.material_count) text.new }
{
    put_sizes(text, r);
    text.put_word(b"steps", BLANK);
    text.put_number(r.clock.steps, BLANK);
    text.put_word(b"materials", BLANK);
    text.put_number(r.material_count as u32, NEWLINE);
}

// Where a save of this study has the fields, whose records of stores begin at `from`: after CI and CM, each record with six bytes before it.
fn fields_of(from: usize, r: Record) -> Fields
    requires { Sound r × (from ≤ 2086) }
    ensures { result ≡ fields_of from r }
{
    let n = r.nx * r.ny * r.nz;
    Fields {
        electric: from + (18 + 28 * n),
        magnetic: from + (24 + 52 * n),
        cells: n,
    }
}

fn put_study(text: &mut Text, b: &[u8], r: Record)
    requires { (list_fault b.now ≡ 0) × (r ≡ read_record b.now) × Room 8717 text.old }
    ensures { Puts 8717 text.old (study_lines (read_record b.now) (read_stores b.now)) text.new }
{
    let from = gets::stores_from(b, r.material_count);
    let saved = Saved {
        bytes: b,
        at: fields_of(from, r),
        nx: r.nx,
        ny: r.ny,
        nz: r.nz,
    };
    put_head(text, r);
    saved.put_grid(text);
}

fn put_listing(text: &mut Text, b: &[u8])
    requires { Room 8717 text.old }
    ensures { Puts 8717 text.old (listing b.now) text.new }
{
    match listed(b) {
        Ok(r) => put_study(text, b, r),
        Err(f) => put_refusal(text, f),
    }
}

// Writes the listing of a save's bytes to the front of the lent room, and answers how long it is.
pub fn list(b: &[u8], out: &mut [u8]) -> usize
    requires { 8717 ≤ length out.old }
    ensures { (result ≡ length (listing b.now)) × (result ≤ 8717) × (out.new ≡ put out.old 0 (listing b.now)) }
{
    let mut text = Text { out, at: 0 };
    put_listing(&mut text, b);
    text.at
}
