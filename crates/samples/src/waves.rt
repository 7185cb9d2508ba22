// A wave sent into a line of four cells: the auxiliary line after one step, as document 01 states it, and after a second one.
ghost use Rattle.std.specs.Prelude.{◌≡◌, length};

use crate::same;
use crate::study::FourCells;
use grid::Record;
use refusals::Refusal;
use root::{EPS0, MU0};
use tfsf::region;

// The line of four cells has 52 places: ex, then hy.
const PLACES: usize = 52;

const SOURCE: usize = 6;

// Whether the places of the line but those from a up to z, of both fields, hold +0.0.
fn zero_but(line: &[f64], a: usize, z: usize) -> bool
    requires { length line.now ≡ 104 }
{
    for i in 0..PLACES {
        let other = (a <= i) & (i < z);
        if !(other | (same(line[i], 0.0) & same(line[PLACES + i], 0.0))) {
            return false;
        }
    }
    true
}

// The sample at the source, and nothing else.
fn after_one(line: &[f64], sample: f64) -> bool
    requires { length line.now ≡ 104 }
{
    zero_but(line, SOURCE, SOURCE + 1)
        & same(line[SOURCE], sample)
        & same(line[PLACES + SOURCE], 0.0)
}

// hy has moved by the sample's slope on both sides of the source, and ex by that of hy, which is some 5e17 here; the second sample is added last, and shows where it
// is as large. All spacings are 1.0.
fn after_two(line: &[f64], first: f64, second: f64) -> bool
    requires { length line.now ≡ 104 }
{
    let h = 1.0 / (MU0 * 1.0);
    let e = 1.0 / (EPS0 * 1.0);
    let below = 0.0 - h * (first - 0.0);
    let above = 0.0 - h * (0.0 - first);
    zero_but(line, SOURCE - 1, SOURCE + 2)
        & same(line[PLACES + SOURCE - 1], below)
        & same(line[PLACES + SOURCE], above)
        & same(line[PLACES + SOURCE + 1], 0.0)
        & same(line[SOURCE - 1], 0.0 - e * (below - 0.0))
        & same(line[SOURCE], first - e * (above - below) + second)
        & same(line[SOURCE + 1], 0.0 - e * (0.0 - above))
}

// Whether the line is as stated after each of two steps, the second with the sample stated.
fn sent_as(first: f64, second: f64, stated: f64) -> Result<bool, Refusal> {
    let mut study = FourCells::new();
    let opened = study.open(4)?;
    let r = region::slab_z(opened, 1, 2, &mut study.aux)?;
    let clock = study.step(r, first)?;
    let one = after_one(&study.aux, first);
    let clock = study.step(Record { clock, ..r }, second)?;
    let two = after_two(&study.aux, first, stated);
    Ok((clock.steps == 2) & one & two)
}

pub fn wave_sent(first: f64, second: f64, stated: f64) -> bool {
    sent_as(first, second, stated).unwrap_or(false)
}
