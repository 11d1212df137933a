// The walk through Data: a cursor, and its step.
#![tactic(auto)]

pub mod cursors; // cursors.rt: the cursor's state, and which states are refused
pub mod steps; // steps.rt: one step
