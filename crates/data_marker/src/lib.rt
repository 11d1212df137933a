// Range tombstone markers.
#![tactic(auto)]

pub mod kinds; // kinds.rt: the flags, the kind and the count
pub mod markers; // markers.rt: a whole marker
