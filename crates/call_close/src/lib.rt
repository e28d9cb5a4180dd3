// Call 13, close: every leg and every held peer ends.
#![tactic(auto)]

pub mod close;
