// Cells and clustering values in the writer's form: how many bytes they have, and those bytes stored.
#![tactic(auto)]

pub mod values; // values.rt: clustering values, and the values of cells
pub mod cells; // cells.rt: a cell
