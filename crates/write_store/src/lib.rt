// The second pass of the writer: a record table that was checked is read again, and its Data stored. Internal: for the writer.
#![tactic(auto)]

pub mod entries; // entries.rt: rows and markers
pub mod whole; // whole.rt: entries and partitions, one after the other
