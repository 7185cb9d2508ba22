// The lines of the cells, read straight from a save's bytes.
ghost use Rattle.std.specs.Prelude.{◌≡◌, ◌+◌, ◌*◌, ◌≤◌, ◌<◌, length};
ghost use Rattle.std.specs.Float.{binary64};
ghost use Rattle.std.specs.Float.Ieee.{of_bits};
ghost use Rattle.codec.specs.Lists.{part};
ghost use Rattle.codec.specs.Bytes.{unle, bits};
ghost use Rattle.lines.specs.Inner.Places.{Room, Puts, Lies, three_text};

use crate::text::{BLANK, NEWLINE, Text};
use codec::{floats, numbers};

// Where the electric and the magnetic numbers begin among the bytes, and how many cells there are.
#[derive(Clone, Copy)]
pub struct Fields {
    pub electric: usize,
    pub magnetic: usize,
    pub cells: usize,
}

// A save's bytes, where its fields lie among them, and its sizes.
#[derive(Clone, Copy)]
pub struct Saved<'a> {
    pub bytes: &'a [u8],
    pub at: Fields,
    pub nx: usize,
    pub ny: usize,
    pub nz: usize,
    ghost lies: { Lies at (length bytes.now) },
    ghost sizes: { (nx ≤ 512) × (ny ≤ 512) × (nz ≤ 512) × (nx * ny * nz ≤ at.cells) },
}

// The bits of the float whose eight bytes stand at `at`.
fn bits_at(b: &[u8], at: usize) -> u64
    requires { at + 8 ≤ length b.now }
    ensures { result ≡ bits (of_bits binary64 (unle (part b.now at 8))) }
{
    floats::bits_of(floats::float_of(numbers::get_u64(b, at)))
}

impl Saved<'_> {
    ghost use Rattle.lines.specs.Inner.Rows.{cell_text, row_text, plane_text, grid_text};

    // The three numbers of the cell at place m, of a store that begins at `from`; the last one ended by `end`.
    fn put_three(&self, text: &mut Text, from: usize, m: usize, end: u8)
        requires { (from + 24 * self.now.at.cells ≤ length self.now.bytes.now) × (m < self.now.at.cells) × Room 51 text.old }
        ensures { Puts 51 text.old (three_text self.now.bytes.now from self.now.at.cells m end) text.new }
    {
        let n = self.at.cells;
        text.put_bits(bits_at(self.bytes, from + 8 * m), BLANK);
        text.put_bits(bits_at(self.bytes, from + 8 * (n + m)), BLANK);
        text.put_bits(bits_at(self.bytes, from + 8 * (2 * n + m)), end);
    }

    fn put_cell(&self, text: &mut Text, i: usize, j: usize, k: usize, m: usize)
        requires { (i < self.now.nx) × (j < self.now.ny) × (k < self.now.nz) × (m < self.now.at.cells) × Room 135 text.old }
        ensures { Puts 135 text.old (cell_text self.now i j k m) text.new }
    {
        text.put_number(i as u32, BLANK);
        text.put_number(j as u32, BLANK);
        text.put_number(k as u32, BLANK);
        self.put_three(text, self.at.electric, m, BLANK);
        self.put_three(text, self.at.magnetic, m, NEWLINE);
    }

    // A row along x, whose first cell is at place m.
    fn put_row(&self, text: &mut Text, j: usize, k: usize, m: usize)
        requires { (j < self.now.ny) × (k < self.now.nz) × (m + self.now.nx ≤ self.now.at.cells) × Room (135 * self.now.nx) text.old }
        ensures { Puts (135 * self.now.nx) text.old (row_text self.now j k m) text.new }
    {
        for i in 0..self.nx {
            self.put_cell(text, i, j, k, m + i);
        }
    }

    // A plane across z, whose first cell is at place m.
    fn put_plane(&self, text: &mut Text, k: usize, m: usize)
        requires { (k < self.now.nz) × (m + self.now.nx * self.now.ny ≤ self.now.at.cells) × Room (135 * self.now.nx * self.now.ny) text.old }
        ensures { Puts (135 * self.now.nx * self.now.ny) text.old (plane_text self.now k m) text.new }
    {
        for j in 0..self.ny {
            self.put_row(text, j, k, m + self.nx * j);
        }
    }

    pub fn put_grid(&self, text: &mut Text)
        requires { Room (135 * self.now.nx * self.now.ny * self.now.nz) text.old }
        ensures { Puts (135 * self.now.nx * self.now.ny * self.now.nz) text.old (grid_text self.now) text.new }
    {
        for k in 0..self.nz {
            self.put_plane(text, k, self.nx * self.ny * k);
        }
    }
}
