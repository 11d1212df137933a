// How many items Data lists.
#![tactic(auto)]

pub mod counts; // counts.rt: the loops over cells, entries and partitions
