// The save of a fresh study of one cell without pole slots: how long it is, and what one byte less or more is refused as.
use crate::study::{OneCell, unit_spacings};
use refusals::{Refusal, code_of};

// Opens the study and saves it.
fn written(out: &mut [u8]) -> Result<(), Refusal> {
    let mut study = OneCell::new();
    let r = study.open(1)?;
    study.save(r, out)
}

// The refusal of a save that is taken up into stores for one cell, or 0.
fn taken_up(save: &[u8]) -> u32 {
    code_of(&OneCell::new().rewind(save))
}

// 1,389 bytes, or as many as are stated: with room for 1,390 the last one is left, with room for 1,388 it is refused.
pub fn has_length(stated: usize) -> bool {
    let r = opening::open_record(1, 1, 1, 0, unit_spacings(), 0);
    let mut roomy = [7u8; 1390];
    let mut narrow = [7u8; 1388];
    let saved = written(&mut roomy);
    let refused = written(&mut narrow);
    (saves::save_length(r).unwrap_or(0) == stated)
        & saved.is_ok()
        & (code_of(&refused) == 12)
        & (roomy[1389] == 7)
        & (roomy[1388] == 0)
        & (narrow[0] == 7)
}

// The first n bytes, or all where there are fewer.
fn cut_to(save: &[u8], n: usize) -> &[u8] {
    &save[..n.min(save.len())]
}

// All of it is taken up; 1,388 bytes are 13 Short, or what is stated, 1,390 are 16 Trailing.
pub fn one_less_one_more(stated: u32) -> bool {
    let mut out = [7u8; 1390];
    let saved = written(&mut out);
    let all = taken_up(cut_to(&out, 1389));
    let less = taken_up(cut_to(&out, 1388));
    let more = taken_up(&out);
    saved.is_ok() & (all == 0) & (less == stated) & (more == 16)
}
