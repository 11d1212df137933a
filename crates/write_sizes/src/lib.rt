// Sizes, flags and headers in the writer's form: how many bytes each has, and those bytes stored.
#![tactic(auto)]

pub mod sizes; // sizes.rt: body size and previous size, and the flags of a row
pub mod prefixes; // prefixes.rt: the header of clustering values
pub mod partitions; // partitions.rt: the header of a partition
