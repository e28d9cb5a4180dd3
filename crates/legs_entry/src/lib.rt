// A handshake leg: by value, and in its entry in lent memory, read and written.
#![tactic(auto)]

pub mod at;
pub mod entry;
pub mod layout;
pub mod leg;
