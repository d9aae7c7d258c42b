// A machine with its names, as an image holds it. The rows of its states are lent beside it: a word for each state and letter, 256 times the
// fence byte and the next state.
use answers::Refusal;

// Bytes, the way's too, so that every header has an image. The names are filled up with zeros.
#[derive(Clone, Copy)]
pub struct Header {
    pub way: u8,
    pub states: u8,
    pub ups: u8,
    pub targets: u8,
    pub upstream: [u8; 16],
    pub target: [u8; 16],
}

// What reading an image gives.
pub type Reading = Result<Header, Refusal>;
