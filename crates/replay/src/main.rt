// A fixed list of answers of the original, run again; to studies with the constants of 2019 the original answered with these put into its
// text. Standard input has, all numbers with the lowest byte first: how many studies there are (four bytes), and then each study:
//
//   ten counts of four bytes: e, h, media, psi_e, psi_h, tables, poles, aux, ids, samples
//   the block, 2074 bytes; the nine stores in the order of the counts; the samples, one to a step
//   the answers of the original: e, h, psi_e, psi_h, poles, aux and the block after the steps
//
// Doubles are eight bytes, every NaN 7FF8000000000000; ids are four. The steps are run, and every number and every byte of the block
// compared with the answers. Of the numbers of a line, those that are compared are counted; what is apart are numbers and bytes of the block.
// In each of a study's seven comparisons the last answer is then changed, and the line counts those that saw it.
#![tactic(auto)]

mod input;
mod output;
mod study;

use differ::Seen;
use std::io;

fn main(rt: HostRuntime) -> io::Result<()> {
    // A list without this number is one whose first study is missing.
    let count = input::list_length(&rt).unwrap_or(1);
    let mut all = Seen {
        whole: true,
        numbers: 0,
        apart: 0,
        seen: 0,
    };
    for at in 0..count {
        let Some(o) = study::next(&rt) else {
            return output::say_missing(&rt, at + 1);
        };
        output::say(&rt, at + 1, o)?;
        all = differ::joined(all, o.seen);
    }
    output::say_all(&rt, count, all)
}
