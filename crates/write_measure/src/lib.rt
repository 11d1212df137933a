// How long the Data of a record table is. Internal: for the writer.
#![tactic(auto)]

pub mod entries; // entries.rt: a static row, a row, a marker
pub mod whole; // whole.rt: the loops over entries and partitions
