// What comes with time: poll, and when the next is wanted.
#![tactic(auto)]

pub mod poll;
pub mod wake;
