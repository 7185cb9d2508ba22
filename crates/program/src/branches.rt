// Saves that are taken up again.
ghost use Rattle.grid.specs.Stores.{stores};
ghost use Rattle.runs.specs.Runs.{StepAndBack, OverAndBack};

use crate::taking;

// A step, and back to a save.
pub fn step_and_back(
    b: &mut [u8],
    sample: f64,
    save: &[u8],
    e: &mut [f64],
    h: &mut [f64],
    media: &mut [f64],
    psi_e: &mut [f64],
    psi_h: &mut [f64],
    tables: &mut [f64],
    poles: &mut [f64],
    aux: &mut [f64],
    ids: &mut [u32],
) -> u32
    ensures { StepAndBack sample save.now b.old (stores e.old h.old media.old psi_e.old psi_h.old tables.old poles.old aux.old ids.old) b.new (stores e.new h.new media.new psi_e.new psi_h.new tables.new poles.new aux.new ids.new) }
{
    stepping::step(
        b, sample, e, h, media, psi_e, psi_h, tables, poles, aux, ids,
    );
    taking::rewind(b, save, e, h, media, psi_e, psi_h, tables, poles, aux, ids)
}

// To an older save, which leaves a branch, and to a save of the branch that was left.
pub fn over_and_back(
    b: &mut [u8],
    older: &[u8],
    save: &[u8],
    e: &mut [f64],
    h: &mut [f64],
    media: &mut [f64],
    psi_e: &mut [f64],
    psi_h: &mut [f64],
    tables: &mut [f64],
    poles: &mut [f64],
    aux: &mut [f64],
    ids: &mut [u32],
) -> u32
    ensures { OverAndBack older.now save.now b.old (stores e.old h.old media.old psi_e.old psi_h.old tables.old poles.old aux.old ids.old) b.new (stores e.new h.new media.new psi_e.new psi_h.new tables.new poles.new aux.new ids.new) }
{
    taking::rewind(b, older, e, h, media, psi_e, psi_h, tables, poles, aux, ids);
    taking::rewind(b, save, e, h, media, psi_e, psi_h, tables, poles, aux, ids)
}
