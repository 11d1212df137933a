// The library's C interface for numbers and for the files beside Data. include/sstable.h has a comment for each call.
#![tactic(auto)]

pub mod varint; // varint.rt: varints
pub mod statistics_db; // statistics_db.rt: Statistics.db
pub mod schema_table; // schema_table.rt: schema tables
pub mod scylla_db; // scylla_db.rt: Scylla.db
