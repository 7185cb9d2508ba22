// One study: read, run, and compared with its answers. What the list does not hold is None.
ghost use Rattle.std.specs.Prelude.{◌≡◌, cond, length, is_none, is_some, IfSome};
ghost use Rattle.differ.specs.Apart.{apart, pattern, element};

use super::input;
use super::input::Counts;
use block::BLOCK_LENGTH;
use differ::Seen;
use grid::Record;
use refusals::Refusal;
use root::vacuum;

// What came of a study: its refusal, if it was refused, its sizes, and its numbers beside the answers.
#[derive(Clone, Copy)]
pub struct Outcome {
    pub refused: Option<Refusal>,
    pub nx: usize,
    pub ny: usize,
    pub nz: usize,
    pub steps: usize,
    pub seen: Seen,
}

// Numbers beside answers, by their patterns.
fn seen_floats(whole: bool, xs: &[f64], b: &mut [f64]) -> Seen
    requires { length xs.now ≡ length b.old }
    ensures { (result.whole ≡ whole) × (result.numbers ≡ length xs.now) × (result.apart ≡ apart (length xs.now) (pattern xs.now) (pattern b.old)) }
{
    let c = differ::compare(xs, b);
    Seen {
        whole,
        numbers: xs.len() as u64,
        apart: c.apart as u64,
        seen: c.seen,
    }
}

// A block's bytes beside those of the answer; they are no numbers.
fn seen_bytes(whole: bool, a: &[u8], b: &mut [u8]) -> Seen
    requires { length a.now ≡ length b.old }
    ensures { (result.whole ≡ whole) × (result.numbers ≡ 0) × (result.apart ≡ apart (length a.now) (element a.now) (element b.old)) }
{
    let c = differ::compare(a, b);
    Seen {
        whole,
        numbers: 0,
        apart: c.apart as u64,
        seen: c.seen,
    }
}

// As many answers as there are numbers, read into b and compared.
fn see_into(rt: &HostRuntime, xs: &[f64], b: &mut [f64]) -> Seen
    requires { length xs.now ≡ length b.old }
    ensures { result.numbers ≡ length xs.now }
{
    let whole = input::read_store(rt, b).is_some();
    seen_floats(whole, xs, b)
}

fn see_floats(rt: &HostRuntime, xs: &[f64]) -> Seen {
    let mut b = [0.0; 864];
    if b.len() < xs.len() {
        return Seen {
            whole: false,
            numbers: 0,
            apart: 0,
            seen: 0,
        };
    }
    see_into(rt, xs, &mut b[..xs.len()])
}

// Two stores, one after the other.
fn see_two(rt: &HostRuntime, a: &[f64], b: &[f64]) -> Seen {
    let first = see_floats(rt, a);
    let second = see_floats(rt, b);
    differ::joined(first, second)
}

// The block of a record beside the one that is answered.
fn see_block(rt: &HostRuntime, r: Record) -> Seen {
    let mut a = [0u8; BLOCK_LENGTH];
    let mut b = [0u8; BLOCK_LENGTH];
    block::put_record(&mut a, r);
    let whole = input::read_bytes(rt, &mut b).is_some();
    seen_bytes(whole, &a, &mut b)
}

// What is said of a study, where all its answers were there. Where it was refused, every number is apart.
fn told(refused: Option<Refusal>, r: Record, steps: usize, seen: Seen) -> Option<Outcome>
    ensures there { is_some result ≡ seen.whole }
    ensures said { IfSome result (λ o. (o.seen.numbers ≡ seen.numbers) × (o.seen.apart ≡ cond (is_none refused) seen.apart seen.numbers) × (o.seen.seen ≡ seen.seen)) }
{
    if !seen.whole {
        return None;
    }
    let apart = if refused.is_none() {
        seen.apart
    } else {
        seen.numbers
    };
    Some(Outcome {
        refused,
        nx: r.nx,
        ny: r.ny,
        nz: r.nz,
        steps,
        seen: Seen { apart, ..seen },
    })
}

// The nine stores, and the samples.
fn read_stores(
    rt: &HostRuntime,
    samples: &mut [f64],
    e: &mut [f64],
    h: &mut [f64],
    media: &mut [f64],
    psi_e: &mut [f64],
    psi_h: &mut [f64],
    tables: &mut [f64],
    poles: &mut [f64],
    aux: &mut [f64],
    ids: &mut [u32],
) -> Option<()> {
    input::read_store(rt, e)?;
    input::read_store(rt, h)?;
    input::read_store(rt, media)?;
    input::read_store(rt, psi_e)?;
    input::read_store(rt, psi_h)?;
    input::read_store(rt, tables)?;
    input::read_store(rt, poles)?;
    input::read_store(rt, aux)?;
    input::read_store(rt, ids)?;
    input::read_store(rt, samples)
}

// The steps of a record in stores of its lengths, and then the answers beside what they leave.
fn play(
    rt: &HostRuntime,
    r: Record,
    samples: &mut [f64],
    e: &mut [f64],
    h: &mut [f64],
    media: &mut [f64],
    psi_e: &mut [f64],
    psi_h: &mut [f64],
    tables: &mut [f64],
    poles: &mut [f64],
    aux: &mut [f64],
    ids: &mut [u32],
) -> Option<Outcome> {
    read_stores(
        rt, samples, e, h, media, psi_e, psi_h, tables, poles, aux, ids,
    )?;
    let v = vacuum::chosen(r.constants);
    let moved = run::run(
        v, r, samples, e, h, media, psi_e, psi_h, tables, poles, aux, ids,
    );
    let q = Record {
        clock: moved.unwrap_or(r.clock),
        ..r
    };
    let fields = see_two(rt, e, h);
    let layer = see_two(rt, psi_e, psi_h);
    let rest = see_two(rt, poles, aux);
    let block = see_block(rt, q);
    let seen = differ::joined(differ::joined(fields, layer), differ::joined(rest, block));
    told(moved.err(), q, samples.len(), seen)
}

// Whether each part fits its array: those of 64 cells, sides of up to 18 and 24 together, 864 numbers of poles, and 3 samples.
fn fits(c: Counts) -> bool {
    (c.e <= 192)
        & (c.h <= 192)
        & (c.media <= 192)
        & (c.psi_e <= 384)
        & (c.psi_h <= 384)
        & (c.tables <= 144)
        & (c.poles <= 864)
        & (c.aux <= 132)
        & (c.ids <= 64)
        & (c.samples <= 3)
}

// A study in arrays of its own, whose counts are no larger; one that fits keeps its counts.
fn lend(rt: &HostRuntime, c: Counts, r: Record) -> Option<Outcome> {
    let mut e = [0.0; 192];
    let mut h = [0.0; 192];
    let mut media = [0.0; 192];
    let mut psi_e = [0.0; 384];
    let mut psi_h = [0.0; 384];
    let mut tables = [0.0; 144];
    let mut poles = [0.0; 864];
    let mut aux = [0.0; 132];
    let mut ids = [0u32; 64];
    let mut samples = [0.0; 3];
    play(
        rt,
        r,
        &mut samples[..c.samples.min(3)],
        &mut e[..c.e.min(192)],
        &mut h[..c.h.min(192)],
        &mut media[..c.media.min(192)],
        &mut psi_e[..c.psi_e.min(384)],
        &mut psi_h[..c.psi_h.min(384)],
        &mut tables[..c.tables.min(144)],
        &mut poles[..c.poles.min(864)],
        &mut aux[..c.aux.min(132)],
        &mut ids[..c.ids.min(64)],
    )
}

// The next study of the list.
pub fn next(rt: &HostRuntime) -> Option<Outcome> {
    let c = input::read_counts(rt)?;
    if !fits(c) {
        return None;
    }
    let mut b = [0u8; BLOCK_LENGTH];
    input::read_bytes(rt, &mut b)?;
    if !block::is_record(&b) {
        return None;
    }
    lend(rt, c, block::get_record(&b))
}
