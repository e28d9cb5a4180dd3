// A msg1 that asks to be admitted: the ruling on it, what is written for it, the holder that it displaces, the answer.
#![tactic(auto)]

pub mod admit;
pub mod answer;
pub mod displace;
pub mod put;
pub mod ruling;
