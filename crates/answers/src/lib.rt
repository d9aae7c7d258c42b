// What a call answers: the refusals of document 01's table, and the five numbers of an answer.
#![tactic(auto)]

ghost use Rattle.std.specs.Prelude.{◌≡◌};
ghost use Rattle.answers.specs.Answer.{number_of, place_of, numbers_of};
ghost use Rattle.answers.specs.Given.{gives, Delivers};

// A refusal, with its place where it has one other than 0.
#[derive(Clone, Copy)]
pub enum Refusal {
    OverLimit,
    NotOfTheForm(usize),
    FenceNameRepeats(usize),
    NoOperation(usize),
    NoSuchFence(usize),
    NoFenceWillDo(usize),
    BufferTooSmall,
    TooManySituations,
    TooManyStates,
    BrokenBlock(usize),
    BarredValue(usize),
    OutOfRange,
}

impl Refusal {
    pub fn number(self) -> u64
        ensures { result ≡ number_of self }
    {
        match self {
            Refusal::OverLimit => 1,
            Refusal::NotOfTheForm(_) => 2,
            Refusal::FenceNameRepeats(_) => 3,
            Refusal::NoOperation(_) => 4,
            Refusal::NoSuchFence(_) => 5,
            Refusal::NoFenceWillDo(_) => 6,
            Refusal::BufferTooSmall => 7,
            Refusal::TooManySituations => 8,
            Refusal::TooManyStates => 9,
            Refusal::BrokenBlock(_) => 10,
            Refusal::BarredValue(_) => 11,
            Refusal::OutOfRange => 12,
        }
    }

    pub fn place(self) -> u64
        ensures { result ≡ place_of self }
    {
        match self {
            Refusal::NotOfTheForm(at)
            | Refusal::FenceNameRepeats(at)
            | Refusal::NoOperation(at)
            | Refusal::NoSuchFence(at)
            | Refusal::NoFenceWillDo(at)
            | Refusal::BrokenBlock(at)
            | Refusal::BarredValue(at) => at as u64,
            Refusal::OverLimit
            | Refusal::BufferTooSmall
            | Refusal::TooManySituations
            | Refusal::TooManyStates
            | Refusal::OutOfRange => 0,
        }
    }
}

// What is said of a text or an image that is read: accepted, or refused.
pub type Verdict = Result<(), Refusal>;

// What a call has written. One without fences or an end state gives 0 there.
#[derive(Clone, Copy)]
pub struct Done {
    pub written: usize,
    pub fences: usize,
    pub state: usize,
}

// What a call that writes answers.
pub type Answer = Result<Done, Refusal>;

// The five numbers of an answer: number, place, written, fences, state.
pub fn numbers(answer: Answer) -> [u64; 5]
    ensures { result ≡ numbers_of answer }
{
    match answer {
        Ok(done) => [
            0,
            0,
            done.written as u64,
            done.fences as u64,
            done.state as u64,
        ],
        Err(why) => [why.number(), why.place(), 0, 0, 0],
    }
}

// Writes the text to the buffer, or nothing where it does not fit. A call that writes makes its text apart and ends with this.
#[tactic(auto, unfolding(crate::specs::Buffer::buffer_with, crate::specs::Buffer::answer_with))]
pub fn write_out(text: &[u8], fences: usize, state: usize, out: &mut [u8]) -> Answer
    ensures { Delivers (gives text.now fences state) out.old result out.new }
{
    if out.len() < text.len() {
        return Err(Refusal::BufferTooSmall);
    }
    // Byte by byte: by `copy_from_slice` the archive for C would want `memmove` from outside.
    for i in 0..text.len() {
        out[i] = text[i];
    }
    Ok(Done {
        written: text.len(),
        fences,
        state,
    })
}
