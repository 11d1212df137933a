// How long clustering values and cells of a record table are. Internal: for the writer.
#![tactic(auto)]

pub mod parts; // parts.rt: the loops over them
pub mod ahead; // ahead.rt: the same loops over a table that was checked
