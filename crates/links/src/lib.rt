// Link records in lent memory: up to 32 in the order of their numbers, and their count.
#![tactic(auto)]

pub mod close;
pub mod read;
pub mod record;
pub mod write;
