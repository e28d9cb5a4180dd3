// A peer is put among the held ones; an answer that was sent makes its peer a held one.
#![tactic(auto)]

pub mod install;
pub mod sent;
