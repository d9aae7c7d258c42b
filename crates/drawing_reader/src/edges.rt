// The edges of a drawing: a word for each state and letter, read into rows.
ghost use Rattle.std.specs.Prelude.{◌+◌, ◌*◌, ◌≤◌, length};
ghost use Rattle.operations.specs.Alphabet.{stride};
ghost use Rattle.drawing_edges.specs.Edges.{Shaped};
ghost use Rattle.drawing_reader.specs.inner.Rows.{ReadsRow, ReadsRows};

use drawing_edges::Shape;
use operations::alphabet::STRIDE;
use texts::Step;

// The edges of a state: their words to its row.
fn edge_row(text: &[u8], start: usize, rows: &mut [u16], shape: Shape, state: usize) -> Step
    requires { Shaped shape × (state * stride + shape.letters ≤ length rows.old) }
    ensures { ReadsRow shape state text.now start rows.old result rows.new }
{
    let letters = shape.letters;
    let mut here = start;
    for letter in 0..letters {
        let (past, word) = drawing_edges::edge_line(text, here, shape, state, letter)?;
        rows[state * STRIDE + letter] = word as u16;
        here = past;
    }
    Ok(here)
}

// The edges of all states: their words to the rows.
pub(crate) fn edge_rows(text: &[u8], start: usize, rows: &mut [u16], shape: Shape) -> Step
    requires { Shaped shape × (shape.states * stride ≤ length rows.old) }
    ensures { ReadsRows shape text.now start rows.old result rows.new }
{
    let states = ground::wide(shape.states);
    let mut here = start;
    for state in 0..states {
        here = edge_row(text, here, rows, shape, state)?;
    }
    Ok(here)
}
