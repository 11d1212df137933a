// The records that the writer is lent, one at a time. Internal: for the writer.
#![tactic(auto)]

pub mod fields; // fields.rt: the bytes of a record that are not used, and which of its numbers are
pub mod ranges; // ranges.rt: the numbers' ranges
pub mod tests; // tests.rt: what a record of each kind may be
pub mod records; // records.rt: a record in its turn
