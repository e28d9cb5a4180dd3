// The fields of a call, after its clock: of the calls that carry a message (handshake), and of the others (event); what msg1 and replacement share (hello).
#![tactic(auto)]

pub mod event;
pub mod handshake;
pub mod hello;
