// The schema: 16-byte column records.
#![tactic(auto)]

pub mod records; // records.rt: whether records are ones that Statistics gives
