// The lines of a listing, put on a page one behind another.
ghost use Rattle.std.specs.Prelude.{◌+◌, ◌≡◌, ◌++◌};
ghost use Rattle.ground.specs.Bytes.{bytes};
ghost use Rattle.printing.specs.Name.{unfilled};
ghost use Rattle.printing.specs.Putting.{PutOn};
ghost use Rattle.machine.specs.Rows.{decoded, answer_at};
ghost use Rattle.listed.specs.Printed.{way_word, names_line, number_line, out_line, listing, refused_at, next_state, step_line};
ghost use Rattle.listed.specs.Printed.{state_lines, row_lines};
ghost use Rattle.listed.specs.inner.Limits.{RowsThere, Listable};
ghost use Rattle.listed.specs.inner.Making.{made_listing};

use machine::machine::Machine;
use models::model::Name;
use operations::alphabet;
use operations::alphabet::{ACCESSES, STRIDE};
use printing::Page;
use rule::way::Way;
use shims::Models;

// A word, a number and a line feed.
fn put_number_line(page: &mut Page, word: &[u8], number: u64)
    ensures { PutOn page.old page.new (number_line word.now number) }
{
    page.put(word);
    page.put_decimal(number);
    page.put(b"\n");
}

fn next_of(word: u16) -> u64
    ensures { result ≡ next_state (decoded word) }
{
    if word / 256 == 254 {
        0
    } else {
        (word % 256) as u64
    }
}

// The line of a state and a letter.
fn put_step(page: &mut Page, state: usize, letter: usize, word: u16)
    ensures { PutOn page.old page.new (step_line state letter (decoded word)) }
{
    page.put_decimal(state as u64);
    page.put(&[
        b' ',
        alphabet::letter_byte(letter),
        b' ',
        alphabet::fence_mark(word / 256),
        b' ',
    ]);
    put_number_line(page, b"", next_of(word));
}

// The lines of a state.
fn put_state(page: &mut Page, rows: &[u16], state: usize, letters: usize)
    requires { RowsThere (state + 1) letters rows.now }
    ensures { PutOn page.old page.new (state_lines state (answer_at rows.now state) letters) }
{
    for letter in 0..letters {
        put_step(page, state, letter, rows[state * STRIDE + letter]);
    }
}

// The lines of all states.
fn put_rows(page: &mut Page, rows: &[u16], states: usize, letters: usize)
    requires { RowsThere states letters rows.now }
    ensures { PutOn page.old page.new (row_lines (answer_at rows.now) letters states) }
{
    for state in 0..states {
        put_state(page, rows, state, letters);
    }
}

fn put_way(page: &mut Page, way: Way)
    ensures { PutOn page.old page.new (way_word way ++ bytes "\n") }
{
    match way {
        Way::Full => page.put(b"full\n"),
        Way::Sparing => page.put(b"sparing\n"),
    }
}

// The names and the way.
fn put_names(page: &mut Page, upstream: Name, target: Name, way: Way)
    ensures { PutOn page.old page.new
        (names_line (unfilled upstream.bytes) (unfilled target.bytes) way) }
{
    page.put_name(&upstream.bytes);
    page.put(b" ");
    page.put_name(&target.bytes);
    page.put(b" ");
    put_way(page, way);
}

// The run's output.
fn put_out(page: &mut Page, output: &[u8])
    ensures { PutOn page.old page.new (out_line output.now) }
{
    page.put(b"out ");
    page.put(output);
    page.put(b"\n");
}

// The line of a refusal, by its number and place.
pub(crate) fn put_refusal(page: &mut Page, number: u64, place: u64)
    ensures { PutOn page.old page.new (refused_at number place) }
{
    page.put(b"refused ");
    page.put_decimal(number);
    put_number_line(page, b" at ", place);
}

// A whole listing.
pub(crate) fn put_listing(
    page: &mut Page,
    models: Models,
    machine: Machine,
    rows: &[u16],
    output: &[u8],
    fences: usize,
)
    requires { Listable machine rows.now output.now fences }
    ensures { PutOn page.old page.new
        (listing (made_listing models machine rows.now output.now fences)) }
{
    let states = machine.states;
    let letters = ACCESSES + machine.ups;
    put_names(page, models.upstream.name, models.target.name, models.way);
    put_number_line(page, b"states ", states as u64);
    put_rows(page, rows, states, letters);
    put_out(page, output);
    put_number_line(page, b"fences ", fences as u64);
}
