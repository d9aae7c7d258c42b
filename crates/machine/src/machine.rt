// What generating comes to.
use answers::Refusal;

// A machine's numbers. Its rows stand in an array of their own: a word for each state and letter, at a stride of 20, which is 256 times the fence
// byte (a target fence's number, 255 none, 254 refused) and the next state.
#[derive(Clone, Copy)]
pub struct Machine {
    // 0 sparing, 1 full: the number that images and calls have, by which `Making` speaks of it
    pub way: u64,
    pub situations: usize,
    pub states: usize,
    // upstream fences, and target fences
    pub ups: usize,
    pub targets: usize,
}

// Refused where there are more than 4,096 situations, else more than 255 states, else rows that do not fit.
pub type Outcome = Result<Machine, Refusal>;
