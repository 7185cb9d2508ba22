// The studies that are run: of cells along z, without pole slots, with all spacings 1.0. Their stores hold other numbers until they are opened.
use grid::{Clock, Record};
use refusals::Refusal;
use root::{Spacings, vacuum};

// As many numbers as three or six to a cell are, as the tables and the line have, and as there are cells.
#[derive(Drop)]
pub struct Study<
    const THREE: usize,
    const SIX: usize,
    const TABLES: usize,
    const LINE: usize,
    const CELLS: usize,
> {
    pub e: [f64; THREE],
    pub h: [f64; THREE],
    pub media: [f64; THREE],
    pub psi_e: [f64; SIX],
    pub psi_h: [f64; SIX],
    pub tables: [f64; TABLES],
    pub poles: [f64; THREE],
    pub aux: [f64; LINE],
    pub ids: [u32; CELLS],
}

pub type OneCell = Study<3, 6, 18, 98, 1>;

pub type FourCells = Study<12, 24, 36, 104, 4>;

pub type Cells24 = Study<72, 144, 156, 144, 24>;

impl<
    const THREE: usize,
    const SIX: usize,
    const TABLES: usize,
    const LINE: usize,
    const CELLS: usize,
> Study<THREE, SIX, TABLES, LINE, CELLS> {
    pub fn new() -> Self {
        Study {
            e: [1.5; THREE],
            h: [1.5; THREE],
            media: [1.5; THREE],
            psi_e: [1.5; SIX],
            psi_h: [1.5; SIX],
            tables: [1.5; TABLES],
            poles: [1.5; THREE],
            aux: [1.5; LINE],
            ids: [7; CELLS],
        }
    }

    pub fn open(&mut self, nz: usize) -> Result<Record, Refusal> {
        opening::new_rect(
            1,
            1,
            nz,
            0,
            unit_spacings(),
            0,
            &mut self.e,
            &mut self.h,
            &mut self.media,
            &mut self.psi_e,
            &mut self.psi_h,
            &mut self.tables,
            &mut self.poles,
            &mut self.aux,
            &mut self.ids,
        )
    }

    pub fn step(&mut self, r: Record, sample: f64) -> Result<Clock, Refusal> {
        clock::step_record(
            vacuum::chosen(r.constants),
            r,
            sample,
            &mut self.e,
            &mut self.h,
            &self.media,
            &mut self.psi_e,
            &mut self.psi_h,
            &self.tables,
            &mut self.poles,
            &mut self.aux,
            &self.ids,
        )
    }

    // The study's save, into the lent room.
    pub fn save(&self, r: Record, out: &mut [u8]) -> Result<(), Refusal> {
        saves::save(
            r,
            &self.e,
            &self.h,
            &self.media,
            &self.psi_e,
            &self.psi_h,
            &self.tables,
            &self.poles,
            &self.aux,
            &self.ids,
            out,
        )
    }

    pub fn rewind(&mut self, save: &[u8]) -> Result<Record, Refusal> {
        saves::rewind(
            save,
            &mut self.e,
            &mut self.h,
            &mut self.media,
            &mut self.psi_e,
            &mut self.psi_h,
            &mut self.tables,
            &mut self.poles,
            &mut self.aux,
            &mut self.ids,
        )
    }
}

pub fn unit_spacings() -> Spacings {
    Spacings {
        dx: 1.0,
        dy: 1.0,
        dz: 1.0,
        dt: 1.0,
    }
}
