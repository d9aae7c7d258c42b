// What is wrong with an image, and where.
#![tactic(auto)]

pub mod verdict;
