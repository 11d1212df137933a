// Cells of Data.
#![tactic(auto)]

pub mod cells; // cells.rt: one cell
