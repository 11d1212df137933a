// The library's C interface for Data. include/sstable.h has a comment for each call.
#![tactic(auto)]

pub mod data_db; // data_db.rt: the walk through Data
pub mod data_list; // data_list.rt: the listing of Data
pub mod data_write; // data_write.rt: Data from records
