// A tape run: records in, outputs and Done out. `extent`, `step` and `run` go over slices and promise values; `feed` reads standard input and calls `step`.
#![tactic(auto)]

pub mod cut;
pub mod feed;
pub mod layout;
pub mod run;
pub mod session;
