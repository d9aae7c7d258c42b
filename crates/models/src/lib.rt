// Models: how one is held, and how its text is read.
#![tactic(auto)]

pub mod held;
pub mod model;
pub mod reader;
mod scan;
