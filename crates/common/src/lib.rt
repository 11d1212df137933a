// What every part of the library stands on: what a refusal says, what reading at a place answers, base times, and parts of a slice.
#![tactic(auto)]

pub mod refusal; // refusal.rt: faults and slices with document 01's numbers
pub mod reading; // reading.rt: what calls answer that read at a place
pub mod times; // times.rt: base times
pub mod part; // part.rt: parts of a slice, handed out and copied
