// What is heard of held peers: a restart, a frame.
#![tactic(auto)]

pub mod peer;
