// Bytes in lent memory: numbers, flags and runs read, written, compared and cleared where they stand.
#![tactic(auto)]

pub mod compare;
pub mod flag;
pub mod layout;
pub mod read;
pub mod write;
