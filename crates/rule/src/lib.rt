// What it means for a shim to be right, and the step that every run and every machine takes.
#![tactic(auto)]

pub mod situation;
pub mod way;
