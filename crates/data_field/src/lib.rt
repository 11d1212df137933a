// The fields that rows, markers and cells of Data share.
#![tactic(auto)]

pub mod fields; // fields.rt: a byte, times as deltas, a deletion, a value
