// Reading an image to a machine.
ghost use Rattle.std.specs.Prelude.{ℕ, ◌+◌, ◌*◌, ◌/◌, ◌%◌, ◌<◌, ◌≤◌, ◌≡◌, length, Ok};
ghost use Rattle.ground.specs.Bytes.{at};
ghost use Rattle.operations.specs.Alphabet.{stride};
ghost use Rattle.image.specs.Image.{listed, header_of, entry_word, row_word, ReadsAs, ReadsTo};

use crate::machine::{Header, Reading};
use answers::Refusal;
use layout::verdict;
use operations::alphabet::{ACCESSES, STRIDE};
use std::array;

// The word of a state and a letter.
#[tactic(auto, unfolding(crate::specs::Image::entry_word))]
fn entry_word(image: &[u8], state: u8, letter: usize) -> u16
    requires { letter < stride }
    ensures { result ≡ entry_word image.now state letter }
{
    let entry = places::entry_start(state);
    if letter < ACCESSES {
        let fence = ground::number_at(image, entry + 2 * letter);
        let next = ground::number_at(image, entry + (2 * letter + 1));
        (256 * fence + next) as u16
    } else if letter - ACCESSES < ground::number_at(image, 5) {
        let next = ground::number_at(image, entry + (ACCESSES + letter));
        (256 * 255 + next) as u16
    } else {
        0
    }
}

// Sixteen bytes of an image.
fn name_at(image: &[u8], from: usize) -> [u8; 16]
    requires { from < 64 }
    ensures { result ≡ listed 16 (λ (k : ℕ). at image.now (from + k)) }
{
    array::from_fn(|k| ground::byte_at(image, from + k))
}

fn header(image: &[u8]) -> Header
    ensures { result ≡ header_of image.now }
{
    Header {
        way: ground::byte_at(image, 3),
        states: ground::byte_at(image, 4),
        ups: ground::byte_at(image, 5),
        targets: ground::byte_at(image, 6),
        upstream: name_at(image, 7),
        target: name_at(image, 23),
    }
}

fn fill_rows(image: &[u8], rows: &mut [u16])
    requires { length rows.old ≤ 255 * stride }
    ensures { rows.new ≡ listed (length rows.old) (row_word image.now) }
{
    for (j, row) in rows.iter_mut().enumerate() {
        *row = entry_word(image, (j / STRIDE) as u8, j % STRIDE);
    }
}

// Of an image that is accepted.
fn read_accepted(image: &[u8], rows: &mut [u16]) -> Reading
    ensures { ReadsAs (Ok tt) image.now rows.old result rows.new }
{
    let count = ground::number_at(image, 4) * STRIDE;
    if rows.len() < count {
        return Err(Refusal::BufferTooSmall);
    }
    fill_rows(image, &mut rows[..count]);
    Ok(header(image))
}

// The machine of an image, its rows to the front of `rows`.
pub fn read(image: &[u8], rows: &mut [u16]) -> Reading
    ensures { ReadsTo image.now rows.old result rows.new }
{
    verdict::examine(image)?;
    read_accepted(image, rows)
}
