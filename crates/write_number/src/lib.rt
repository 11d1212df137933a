// What the writer's form is made of: one byte, and numbers above their base.
#![tactic(auto)]

pub mod numbers; // numbers.rt: a byte, and what a number lies above its base
