// The run of a stream over an image.
#![tactic(auto)]

ghost use Rattle.std.specs.Prelude.{◌+◌, ◌*◌, ◌^◌, ◌<◌, ◌≤◌, ◌≡◌, length, Some, Ok};
ghost use Rattle.answers.specs.Given.{Delivers};
ghost use Rattle.operations.specs.declared.Operation.{Operation};
ghost use Rattle.image_runs.specs.Run.{access_step, step_as, step_at, walked, refusal_of, outcome_of, stream_limit, run_as, run_over};
ghost use Rattle.image_runs.specs.inner.Walking.{Small, Moved, Ends};

use answers::{Answer, Refusal};
use layout::verdict;
use operations::alphabet::ACCESSES;
use operations::{Kind, Operation, alphabet};

// The limit of a stream.
const LIMIT: usize = 4096;

// Why a run stops.
#[derive(Clone, Copy)]
pub enum Stop {
    NoOperation,
    NoSuchFence,
    NoFenceWillDo,
}

// An upstream fence passed over, an access put out alone, or an access behind a fence, whose byte comes first; and the next state.
#[derive(Clone, Copy)]
pub enum Move {
    Passed(usize),
    Plain(usize),
    Fenced(u8, usize),
}

// What a state answers to a byte: a move, or why the run stops.
pub type Step = Result<Move, Stop>;

// An access whose entry has this fence byte and this next state.
fn access_step(fence: usize, next: usize) -> Step
    requires { next < 256 }
    ensures { (result ≡ access_step fence next) × Small result }
{
    match fence {
        254 => Err(Stop::NoFenceWillDo),
        255 => Ok(Move::Plain(next)),
        _ => Ok(Move::Fenced(operations::byte_of(Operation::Fence(fence)), next)),
    }
}

fn take_access(image: &[u8], state: usize, kind: Kind) -> Step
    requires { state < 256 }
    ensures { (result ≡ step_as image.now state (Some (Operation.Access kind))) × Small result }
{
    let at = places::entry_start(state as u8) + 2 * alphabet::letter_of(kind);
    let fence = ground::number_at(image, at);
    let next = ground::number_at(image, at + 1);
    access_step(fence, next)
}

fn take_fence(image: &[u8], state: usize, f: usize) -> Step
    requires { state < 256 }
    ensures { (result ≡ step_as image.now state (Some (Operation.Fence f))) × Small result }
{
    if ground::number_at(image, 5) <= f {
        return Err(Stop::NoSuchFence);
    }
    let next = ground::number_at(image, places::entry_start(state as u8) + (2 * ACCESSES + f));
    Ok(Move::Passed(next))
}

fn take(image: &[u8], state: usize, operation: Operation) -> Step
    requires { state < 256 }
    ensures { (result ≡ step_as image.now state (Some operation)) × Small result }
{
    match operation {
        Operation::Access(kind) => take_access(image, state, kind),
        Operation::Fence(f) => take_fence(image, state, f),
    }
}

#[tactic(auto, unfolding(crate::specs::Run::step_at))]
fn take_byte(image: &[u8], state: usize, byte: u8) -> Step
    requires { state < 256 }
    ensures { (result ≡ step_at image.now state byte) × Small result }
{
    match operations::read_byte(byte) {
        Some(operation) => take(image, state, operation),
        None => Err(Stop::NoOperation),
    }
}

// How far a run has come: bytes put out, fences among them, and the state.
#[derive(Drop)]
struct Progress {
    written: usize,
    fences: usize,
    state: usize,
}

// Puts out what a move puts out for a byte.
fn put(p: Progress, byte: u8, taken: Move, room: &mut [u8]) -> Progress
    requires { (p.written + 2 ≤ length room.old) × (p.fences < 2 ^ 32) }
    ensures { Moved p byte taken room.old result room.new }
{
    let at = p.written;
    match taken {
        Move::Passed(state) => Progress {
            written: at,
            fences: p.fences,
            state,
        },
        Move::Plain(state) => {
            room[at] = byte;
            Progress {
                written: at + 1,
                fences: p.fences,
                state,
            }
        }
        Move::Fenced(fence, state) => {
            room[at] = fence;
            room[at + 1] = byte;
            Progress {
                written: at + 2,
                fences: p.fences + 1,
                state,
            }
        }
    }
}

// The run from a state, its output to the front of `room`.
fn run_all<'a>(
    image: &'a [u8],
    start: usize,
    stream: &'a [u8],
    room: &mut [u8],
) -> Result<Progress, Refusal>
    requires { (start < 256) × (length stream.now ≤ stream_limit) × (length room.old ≡ 2 * stream_limit) }
    ensures { Ends (walked image.now start stream.now) result room.new }
{
    let mut p = Progress {
        written: 0,
        fences: 0,
        state: start,
    };
    for (i, byte) in stream.iter().enumerate() {
        match take_byte(image, p.state, *byte) {
            Err(why) => return Err(refusal(why, i)),
            Ok(taken) => p = put(p, *byte, taken, room),
        }
    }
    Ok(p)
}

fn refusal(why: Stop, i: usize) -> Refusal
    ensures { result ≡ refusal_of why i }
{
    match why {
        Stop::NoOperation => Refusal::NoOperation(i),
        Stop::NoSuchFence => Refusal::NoSuchFence(i),
        Stop::NoFenceWillDo => Refusal::NoFenceWillDo(i),
    }
}

// The output is made apart, so that a refused run writes nothing.
fn run_from<'a>(image: &'a [u8], start: usize, stream: &'a [u8], out: &mut [u8]) -> Answer
    requires { (start < 256) × (length stream.now ≤ stream_limit) }
    ensures { Delivers (outcome_of (walked image.now start stream.now)) out.old result out.new }
{
    let mut room = [0u8; 2 * LIMIT];
    let p = run_all(image, start, stream, &mut room)?;
    let n = p.written;
    answers::write_out(&room[..n], p.fences, p.state, out)
}

// Over an image that is accepted.
fn run_accepted<'a>(image: &'a [u8], start: u64, stream: &'a [u8], out: &mut [u8]) -> Answer
    ensures { Delivers (run_as image.now start stream.now (Ok tt)) out.old result out.new }
{
    let states = ground::number_at(image, 4);
    if states as u64 <= start {
        return Err(Refusal::OutOfRange);
    }
    if LIMIT < stream.len() {
        return Err(Refusal::OverLimit);
    }
    run_from(image, start as usize, stream, out)
}

// Runs a stream over an image from a state.
#[tactic(auto, unfolding(crate::specs::Run::run_over))]
pub fn run<'a>(image: &'a [u8], start: u64, stream: &'a [u8], out: &mut [u8]) -> Answer
    ensures { Delivers (run_over image.now start stream.now) out.old result out.new }
{
    verdict::examine(image)?;
    run_accepted(image, start, stream, out)
}
