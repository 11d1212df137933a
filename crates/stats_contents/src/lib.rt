// Statistics' contents.
#![tactic(auto)]

pub mod contents; // contents.rt: which entries there are, and where
