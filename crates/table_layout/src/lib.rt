// The whole table in one lent slice: where its regions lie, what it shows, and its head. The crates `table_..` lift each function of a map to it; no place within the table is named above them.
#![tactic(auto)]

pub mod head;
pub mod layout;
