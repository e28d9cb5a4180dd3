// The step of each kind but those of a msg1: a record's fields are read, and the call is settled.
#![tactic(auto)]

pub mod dials;
pub mod paths;
pub mod peers;
pub mod times;
