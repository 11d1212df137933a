// What stands in rows and markers alike: clustering and sizes.
#![tactic(auto)]

pub mod prefixes; // prefixes.rt: the clustering header and values
pub mod sizes; // sizes.rt: where the body ends
