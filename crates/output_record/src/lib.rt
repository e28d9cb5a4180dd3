// Outputs written into a lent buffer. A writer answers the place after what it wrote.
#![tactic(auto)]

pub mod put;
