// The bytes of a save: numbers with the lowest byte first, floats with one NaN, whole stores, and the records that hold them.

#![tactic(auto)]

pub mod numbers; // numbers.rt: numbers of one, two, four and eight bytes
pub mod floats; // floats.rt: an f64 as its 64 bits
pub mod stores; // stores.rt: many f64, many u32
pub mod frame; // frame.rt: a record's mark and its payload's length
