// What the listing program prints, as bytes.
#![tactic(auto)]

mod numbers; // numbers.rt: numbers in decimal
pub mod line; // line.rt: a record's line
pub mod refusals; // refusals.rt: a refusal's line
