// Strengths and tables of strengths. Nothing else in the project looks at the bits of a table.
#![tactic(auto)]

pub mod strength;
pub mod table;
