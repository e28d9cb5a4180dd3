// A link: by value, and in its entry in lent memory, read; and its paths there.
#![tactic(auto)]

pub mod layout;
pub mod paths;
pub mod read;
pub mod record;
