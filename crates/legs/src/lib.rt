// Handshake legs in lent memory: up to 32 in the order of their links, and then their count.
#![tactic(auto)]

pub mod at;
pub mod change;
pub mod leg;
pub mod map;
pub mod poll;
pub mod stored;
