// The calls of a link's paths: path and release.
#![tactic(auto)]

pub mod path;
