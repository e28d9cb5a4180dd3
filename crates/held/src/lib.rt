// Peers held, in lent memory: up to 32 in the order of their addresses, and then their count.
#![tactic(auto)]

pub mod at;
mod change;
mod entry;
pub mod heard;
pub mod layout;
pub mod map;
pub mod moved;
pub mod record;
pub mod restarted;
