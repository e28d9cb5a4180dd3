// The steps that end a leg or a holder.
#![tactic(auto)]

pub mod leg;
pub mod peer;
