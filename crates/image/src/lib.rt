// The machine image: blocks of 512 bytes, read and written.
#![tactic(auto)]

pub mod calls;
pub mod machine;
pub mod reader;
pub mod writer;
