// Rows, markers and partitions in the writer's form, without their clustering values and cells: how many bytes each part has, and those
// bytes stored.
#![tactic(auto)]

pub mod pairs; // pairs.rt: two numbers above their bases, and a deletion
pub mod heads; // heads.rt: what stands before the cells of a row
pub mod markers; // markers.rt: flags, kind, count and deletions of a marker
