// The header of a partition.
#![tactic(auto)]

pub mod partitions; // partitions.rt: key and deletion
