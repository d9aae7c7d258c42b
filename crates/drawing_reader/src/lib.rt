// A drawing read back: from its text to the image of the machine that it draws.
#![tactic(auto)]

ghost use Rattle.std.specs.Prelude.{◌*◌, ◌≤◌, ◌≡◌, length};
ghost use Rattle.answers.specs.Given.{Answers};
ghost use Rattle.operations.specs.Alphabet.{stride};
ghost use Rattle.drawing_reader.specs.Undrawing.{Undrawn};
ghost use Rattle.drawing_label.specs.Label.{LabelFormed, label_of, label_for, Fielded, Fits};
ghost use Rattle.drawing_edges.specs.Edges.{Shaped};
ghost use Rattle.drawing_reader.specs.inner.Whole.{shape_for, FromEdges, FromNodes, WholePart, ReadsDrawn, Reads};

mod edges;

use answers::{Answer, Refusal};
use drawing_edges::Shape;
use drawing_label::LabelRead;
use image::machine::Header;
use image::writer;
use operations::alphabet::{ACCESSES, STRIDE, WORDS};
use texts::Step;

// The limit of a drawing's length.
const LIMIT: usize = 262_144;

// What was read of a drawing: its header and the place behind it. The rows of its states are lent beside it.
#[derive(Drop)]
struct DrawingRead {
    header: Header,
    next: usize,
}

// The edges and the last line, from the first edge on.
fn read_edges(text: &[u8], at: usize, header: Header, rows: &mut [u16]) -> Step
    requires { Shaped (shape_for (label_for header) header.states) × (header.states * stride ≤ length rows.old) }
    ensures { ReadsDrawn (FromEdges (label_for header) header.states) text.now at rows.old header result
        rows.new }
{
    let shape = Shape {
        states: header.states,
        letters: ACCESSES + ground::wide(header.ups),
        targets: ground::wide(header.targets),
    };
    let end = edges::edge_rows(text, at, rows, shape)?;
    texts::follow(text, end, b"}\n")
}

// The header of a machine that has so many states, by its label.
fn header_for(label: LabelRead, states: usize) -> Header
    requires { Fits label × (states ≤ 255) }
    ensures { (label_for result ≡ label_of label) × (result.states ≡ states) × Fielded result.upstream × Fielded result.target }
{
    let upstream = label.upstream;
    let target = label.target;
    Header {
        way: label.way as u8,
        states: states as u8,
        ups: label.ups as u8,
        targets: label.targets as u8,
        upstream,
        target,
    }
}

// From the nodes on.
fn read_nodes(
    text: &[u8],
    at: usize,
    label: LabelRead,
    rows: &mut [u16],
) -> Result<DrawingRead, usize>
    requires { Fits label × LabelFormed (label_of label) × (255 * stride ≤ length rows.old) }
    ensures { Reads (FromNodes (label_of label)) text.now at rows.old result rows.new }
{
    let (first, states) = drawing_nodes::nodes(text, at)?;
    let header = header_for(label, states);
    let next = read_edges(text, first, header, rows)?;
    Ok(DrawingRead { header, next })
}

// A whole drawing, from the front of the text.
fn read(text: &[u8], rows: &mut [u16]) -> Result<DrawingRead, usize>
    requires { 255 * stride ≤ length rows.old }
    ensures { Reads WholePart text.now 0 rows.old result rows.new }
{
    let label = drawing_label::label(text)?;
    read_nodes(text, label.next, label, rows)
}

// The image of the machine that a text draws, or nothing where it draws none or the image does not fit.
pub fn undraw(text: &[u8], out: &mut [u8]) -> Answer
    ensures { Answers (Undrawn text.now) out.old result out.new }
{
    if LIMIT < text.len() {
        return Err(Refusal::OverLimit);
    }
    let mut rows = [0u16; WORDS];
    let drawing = read(text, &mut rows).map_err(Refusal::NotOfTheForm)?;
    let end = drawing.next;
    if end != text.len() {
        return Err(Refusal::NotOfTheForm(end));
    }
    let header = drawing.header;
    let n = ground::wide(header.states) * STRIDE;
    writer::write(header, &rows[..n], out)
}
