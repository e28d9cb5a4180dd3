// What is remembered of a peer in lent memory: the entry of a memory, read and written.
#![tactic(auto)]

pub mod at;
pub mod layout;
pub mod load;
pub mod put;
mod row;
