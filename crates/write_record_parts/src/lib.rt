// What a record of 64 bytes spells. Internal: for the writer.
#![tactic(auto)]

pub mod fields; // fields.rt: the numbers of a record
pub mod convert; // convert.rt: what a record says, as the parts that are written
