// Rows that were read before, read again up to their first cell: it is known that they stand, and nothing is tested.
#![tactic(auto)]

pub mod prefixes; // prefixes.rt: the clustering header and values
pub mod bodies; // bodies.rt: sizes, liveness, deletion, the columns that have a cell
pub mod rows; // rows.rt: the whole of it
