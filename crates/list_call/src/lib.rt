// The listing of Data: a record of 64 bytes for each item of the walk.
#![tactic(auto)]

pub mod fills; // fills.rt: the second pass, which stores the records
pub mod lists; // lists.rt: the calls
pub mod records; // records.rt: one record
