// A row, from its flags to its first cell.
#![tactic(auto)]

pub mod flags; // flags.rt: the flags and the extended byte
pub mod bodies; // bodies.rt: sizes, liveness, deletion, the columns that have a cell
pub mod rows; // rows.rt: the whole of it
