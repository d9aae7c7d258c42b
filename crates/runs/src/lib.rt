// The direct run: two model texts, a way, a stream and a buffer.
#![tactic(auto)]

ghost use Rattle.std.specs.Prelude.{◌+◌, ◌≤◌, ◌<◌, ◌≡◌, ◌==◌, length};
ghost use Rattle.answers.specs.Given.{Delivers};
ghost use Rattle.operations.specs.Operation.{byte_is, is_fence, fence_bytes};
ghost use Rattle.rule.specs.Situation.{fresh};
ghost use Rattle.runs.specs.Bytes.{direct};
ghost use Rattle.runs.specs.Call.{run_given, outcome};
ghost use Rattle.runs.specs.inner.Laying.{turned, laid, given, Fits, Ends};
ghost use Rattle.runs.specs.inner.Moves.{moved, moves, accessed, asked, for_sides};

use answers::{Answer, Refusal};
use operations::{Kind, Operation};
use rule::situation::Situation;
use rule::way::Step;
use shims::{Models, Sides};

// What one byte of a stream does: it is passed over, or put out with nothing or with a fence before it.
#[derive(Drop)]
enum Move {
    Silent(Situation),
    Plain(Situation),
    Fenced(usize, Situation),
}

// How far a run has come: the situation, and how many bytes are put out.
#[derive(Drop)]
struct Progress {
    situation: Situation,
    written: usize,
}

// How many of these bytes are fences.
#[tactic(auto, using(crate::proofs::Counting::fences_counted))]
fn fences_in(bytes: &[u8]) -> usize
    ensures { result ≡ fence_bytes bytes.now }
{
    bytes.iter().filter(|byte| is_fence(**byte)).count()
}

fn is_fence(byte: u8) -> bool
    ensures { result ≡ (is_fence (byte_is byte) == 1) }
{
    matches!(operations::read_byte(byte), Some(Operation::Fence(_)))
}

// What an access does, at its index.
fn access<'a>(
    sides: Sides<'a>,
    situation: Situation,
    at: usize,
    kind: Kind,
) -> Result<Move, Refusal>
    ensures { result ≡ for_sides accessed sides.entry situation at kind }
{
    match rule::way::take(sides.shim, sides.targets, situation, kind) {
        Step::Plain(next) => Ok(Move::Plain(next)),
        Step::Fenced(g, next) => Ok(Move::Fenced(g, next)),
        Step::Refused => Err(Refusal::NoFenceWillDo(at)),
    }
}

// What an upstream fence does, at its index.
fn ask(fences: &[u64], situation: Situation, at: usize, number: usize) -> Result<Move, Refusal>
    ensures { result ≡ asked fences.now situation at number }
{
    if number < fences.len() {
        Ok(Move::Silent(situation.asks(rule::way::fence_table(fences, number))))
    } else {
        Err(Refusal::NoSuchFence(at))
    }
}

// What a byte does, at its index.
fn advance<'a>(sides: Sides<'a>, situation: Situation, at: usize, byte: u8) -> Result<Move, Refusal>
    ensures { result ≡ for_sides moved sides.entry situation at byte }
{
    match operations::read_byte(byte).ok_or(Refusal::NoOperation(at))? {
        Operation::Access(kind) => access(sides, situation, at, kind),
        Operation::Fence(number) => ask(sides.fences, situation, at, number),
    }
}

// Lays what a move puts out into the buffer, behind what is there.
fn lay(step: Move, byte: u8, written: usize, buffer: &mut [u8]) -> Progress
    requires { written + 1 < length buffer.old }
    ensures answer { result ≡ turned step written }
    ensures buffer { buffer.new ≡ laid step byte written buffer.old }
{
    match step {
        Move::Silent(situation) => Progress { situation, written },
        Move::Plain(situation) => {
            buffer[written] = byte;
            Progress {
                situation,
                written: written + 1,
            }
        }
        Move::Fenced(g, situation) => {
            buffer[written] = operations::byte_of(Operation::Fence(g));
            buffer[written + 1] = byte;
            Progress {
                situation,
                written: written + 2,
            }
        }
    }
}

// Runs the stream from the fresh situation, into a buffer that holds two bytes for each operation, and tells how many bytes are put out.
fn run_stream<'a>(sides: Sides<'a>, stream: &'a [u8], buffer: &mut [u8]) -> Result<usize, Refusal>
    requires { (length stream.now ≤ 4096) × (length buffer.old ≡ 8192) }
    ensures { Ends (for_sides moves sides.entry fresh 0 stream.now) result buffer.new }
{
    let mut situation = Situation::FRESH;
    let mut written = 0;
    for (at, &byte) in stream.iter().enumerate() {
        let step = advance(sides, situation, at, byte)?;
        let next = lay(step, byte, written, buffer);
        situation = next.situation;
        written = next.written;
    }
    Ok(written)
}

// The run of a stream within its limit. It owns the buffer that the run is laid into, so that a refusal writes nothing.
fn run_within<'a>(sides: Sides<'a>, stream: &'a [u8], out: &mut [u8]) -> Answer
    requires { length stream.now ≤ 4096 }
    ensures { Delivers (for_sides direct sides.entry stream.now) out.old result out.new }
{
    let mut buffer = [0u8; 8192];
    let written = run_stream(sides, stream, &mut buffer)?;
    let bytes = &buffer[..written];
    answers::write_out(bytes, fences_in(bytes), 0, out)
}

// The run over two models, as they were read or made.
pub fn run_models(models: Models, stream: &[u8], out: &mut [u8]) -> Answer
    ensures { Delivers (run_given models stream.now) out.old result out.new }
{
    if 4096 < stream.len() {
        return Err(Refusal::OverLimit);
    }
    run_within(shims::sides_of(&models), stream, out)
}

// The direct run of a stream: two model texts, a way by its number, the stream, and the buffer that gets the output.
pub fn run<'a>(
    way: u64,
    upstream: &'a [u8],
    target: &'a [u8],
    stream: &'a [u8],
    out: &mut [u8],
) -> Answer
    ensures { Delivers (outcome way upstream.now target.now stream.now)
        out.old result out.new }
{
    run_models(shims::read_both(way, upstream, target)?, stream, out)
}
