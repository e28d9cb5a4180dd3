// What is remembered of the peers, in lent memory: up to 32 in the order of their peers, and then their count.
#![tactic(auto)]

pub mod calls;
pub mod map;
