// The calls of a msg1: arrived, before it is read; msg1 and replacement, read and verified.
#![tactic(auto)]

pub mod arrived;
pub mod msg1;
