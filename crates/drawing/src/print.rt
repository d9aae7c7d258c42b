// The lines of a drawing, put on a page one behind another.
ghost use Rattle.std.specs.Prelude.{◌+◌, ◌*◌, ◌≤◌, ◌++◌, length};
ghost use Rattle.ground.specs.Bytes.{bytes};
ghost use Rattle.operations.specs.Alphabet.{stride};
ghost use Rattle.printing.specs.Decimal.{decimal};
ghost use Rattle.printing.specs.Putting.{PutOn};
ghost use Rattle.printing.specs.Turns.{in_turn};
ghost use Rattle.drawing.specs.Drawing.{way_word, label_line, node_line, leads_to, edge_line, state_edges, drawing_of};

use image::machine::Header;
use operations::alphabet;
use operations::alphabet::{ACCESSES, STRIDE};
use printing::Page;

// A header's byte, where the listing has a `Way` and ends the line.
fn put_way(page: &mut Page, way: u8)
    ensures { PutOn page.old page.new (way_word way) }
{
    if way == 0 {
        page.put(b"sparing");
    } else {
        page.put(b"full");
    }
}

// The label's two counts, to the end of its line.
fn put_counts(page: &mut Page, ups: u8, targets: u8)
    ensures { PutOn page.old page.new
        (bytes " " ++ (decimal ups ++ (bytes " " ++ (decimal targets ++ bytes "\";\n")))) }
{
    // `u64::from` was tried: the proof loses that it is the same number.
    page.put(b" ");
    page.put_decimal(ups as u64);
    page.put(b" ");
    page.put_decimal(targets as u64);
    page.put(b"\";\n");
}

fn put_label(page: &mut Page, h: Header)
    ensures { PutOn page.old page.new (label_line h) }
{
    page.put(b"label=\"");
    page.put_name(&h.upstream);
    page.put(b" ");
    page.put_name(&h.target);
    page.put(b" ");
    put_way(page, h.way);
    put_counts(page, h.ups, h.targets);
}

fn put_node(page: &mut Page, state: usize)
    ensures { PutOn page.old page.new (node_line state) }
{
    page.put_decimal(state as u64);
    page.put(b";\n");
}

// A node for each state.
fn put_nodes(page: &mut Page, states: usize)
    ensures { PutOn page.old page.new (in_turn node_line states) }
{
    for state in 0..states {
        put_node(page, state);
    }
}

// Where an edge leads.
fn put_next(page: &mut Page, word: u16)
    ensures { PutOn page.old page.new (leads_to word) }
{
    if word / 256 == 254 {
        page.put(b"refused");
    } else {
        page.put_decimal((word % 256) as u64);
    }
}

// The edge of a state and a letter.
fn put_edge(page: &mut Page, state: usize, letter: usize, word: u16)
    ensures { PutOn page.old page.new (edge_line state letter word) }
{
    page.put_decimal(state as u64);
    page.put(b" -> ");
    put_next(page, word);
    page.put(b" [label=\"");
    page.put(&[
        alphabet::letter_byte(letter),
        b' ',
        alphabet::fence_mark(word / 256),
    ]);
    page.put(b"\"];\n");
}

// The edges of a state.
fn put_state(page: &mut Page, rows: &[u16], letters: usize, state: usize)
    requires { (letters ≤ stride) × ((state + 1) * stride ≤ length rows.now) }
    ensures { PutOn page.old page.new (state_edges letters rows.now state) }
{
    for letter in 0..letters {
        put_edge(page, state, letter, rows[state * STRIDE + letter]);
    }
}

// The edges of all states.
fn put_edges(page: &mut Page, rows: &[u16], letters: usize, states: usize)
    requires { (letters ≤ stride) × (states * stride ≤ length rows.now) }
    ensures { PutOn page.old page.new (in_turn (state_edges letters rows.now) states) }
{
    for state in 0..states {
        put_state(page, rows, letters, state);
    }
}

// A whole drawing.
pub(crate) fn put_drawing(page: &mut Page, h: Header, rows: &[u16])
    requires { (h.ups ≤ 16) × (h.states * stride ≤ length rows.now) }
    ensures { PutOn page.old page.new (drawing_of h rows.now) }
{
    let states = ground::wide(h.states);
    let letters = ACCESSES + ground::wide(h.ups);
    page.put(b"digraph shim {\n");
    put_label(page, h);
    put_nodes(page, states);
    put_edges(page, rows, letters, states);
    page.put(b"}\n");
}
