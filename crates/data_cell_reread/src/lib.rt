// Values and cells that were read before, read again: it is known that they stand, and nothing is tested.
#![tactic(auto)]

pub mod fields; // fields.rt: a byte, a base and a delta, a value
pub mod cells; // cells.rt: one cell
