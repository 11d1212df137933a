// What the writer stores in its second pass: rows and markers of a record table that was checked and measured. Internal: for the writer.
#![tactic(auto)]

pub mod parts; // parts.rt: clustering values and cells, read again
pub mod rows; // rows.rt: rows and markers
