// The writer: Data from a record table.
#![tactic(auto)]

pub mod writes; // writes.rt: the call
