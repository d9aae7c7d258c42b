// One edge of a drawing, read back: the word of a state and a letter.
#![tactic(auto)]

ghost use Rattle.std.specs.Prelude.{◌≤◌, ◌≡◌};
ghost use Rattle.texts.specs.Pattern.{follow_at};
ghost use Rattle.texts.specs.Telling.{Finds, part_taken};
ghost use Rattle.drawing_edges.specs.Edges.{fence_named, middle, MarkPart, Refused, Led, EdgeEnd, EdgePart, Shaped, nearest};

use drawing_nodes::decimal;
use operations::alphabet::{ACCESSES, STRIDE};
use operations::{Operation, alphabet};
use texts::{Part, Step};

// How many states a machine has, how many letters, and how many fences its target has.
#[derive(Clone, Copy)]
pub struct Shape {
    pub states: u8,
    pub letters: usize,
    pub targets: usize,
}

// The fence that a byte names.
#[tactic(auto, using(crate::proofs::Marks::named_fence, crate::proofs::Marks::named_access, crate::proofs::Marks::named_nothing))]
fn fence_named(b: u8) -> Option<usize>
    ensures { result ≡ fence_named b }
{
    match operations::read_byte(b) {
        Some(Operation::Fence(n)) => Some(n),
        _ => None,
    }
}

// The mark of one of the first so many fences, or of none, which is told as 255: the fence byte of a machine's rows, as an image has it.
fn mark(text: &[u8], at: usize, marks: usize) -> Part
    requires { marks ≤ 16 }
    ensures { Finds (MarkPart marks) text.now at (part_taken result) }
{
    let b = *text.get(at).ok_or(at)?;
    if b == b'-' {
        return Ok((at + 1, 255));
    }
    let n = fence_named(b).ok_or(at)?;
    if n < marks {
        return Ok((at + 1, n));
    }
    Err(at)
}

// From the label's beginning to the mark.
fn label_part(text: &[u8], at: usize, letter: usize) -> Step
    ensures { result ≡ follow_at (middle letter) text.now at }
{
    let byte = alphabet::letter_byte(letter);
    let word = [b'[', b'l', b'a', b'b', b'e', b'l', b'=', b'"', byte, b' '];
    texts::follow(text, at, &word)
}

// Behind the arrow, of a refused operation.
fn refused_end(text: &[u8], at: usize, letter: usize) -> Part
    ensures { Finds (Refused letter) text.now at (part_taken result) }
{
    let label = texts::follow(text, at, b"refused ")?;
    let mark_at = label_part(text, label, letter)?;
    let past = texts::follow(text, mark_at, b"!\"];\n")?;
    Ok((past, 256 * 254))
}

// Behind the arrow, of an operation that leads to a state.
fn led_end(text: &[u8], at: usize, states: u8, marks: usize, letter: usize) -> Part
    requires { (1 ≤ states) × (marks ≤ 16) }
    ensures { Finds (Led states marks letter) text.now at (part_taken result) }
{
    let (label, next) = texts::number(text, at, states, b' ')?;
    let mark_at = label_part(text, label, letter)?;
    let (end, fence) = mark(text, mark_at, marks)?;
    let past = texts::follow(text, end, b"\"];\n")?;
    Ok((past, 256 * fence + next))
}

// Behind the arrow. Where the edge of an access leads its first byte tells: no number begins as `refused` does.
fn edge_end(text: &[u8], at: usize, shape: Shape, letter: usize) -> Part
    requires { Shaped shape }
    ensures { Finds (EdgeEnd shape letter) text.now at (part_taken result) }
{
    if ACCESSES <= letter {
        return led_end(text, at, shape.states, 0, letter);
    }
    if ground::byte_at(text, at) == b'r' {
        return refused_end(text, at, letter);
    }
    led_end(text, at, shape.states, shape.targets, letter)
}

// The edge of a state and a letter in a machine of any shape: its word. A shape that no machine has counts as the nearest that one has. A machine
// has at least one state.
pub fn edge_line(text: &[u8], at: usize, shape: Shape, state: usize, letter: usize) -> Part
    ensures { Finds (EdgePart (nearest shape) state letter) text.now at (part_taken result) }
{
    let possible = Shape {
        states: shape.states.max(1),
        letters: shape.letters.min(STRIDE),
        targets: shape.targets.min(16),
    };
    let past = decimal::follow_decimal(text, at, state, b" -> ")?;
    edge_end(text, past, possible, letter)
}
