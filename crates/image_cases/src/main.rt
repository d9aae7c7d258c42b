// Images: every built-in pair generated, read and written back, both ways; images of the layout's limits; damaged images; runs over images;
// buffers too small by one byte and exactly right. An answer is its five numbers; a header is way, states, upstream and target fences.
// Standard input has model texts, a heading, and then commands, which work on one buffer with an image at its front. A command has seven fields: a
// letter, what is printed first, four that the letter explains, and the end of the line; each field has a bar behind it.
// Both the commands and the stored output come from tools/expect-image-cases, which has the model in host/model, that shares nothing with this
// code, make the images and answer, and works the checks out by itself.
#![tactic(auto)]

mod handmade;
mod show;
mod tries;

use answers::Answer;
use cases::fields::{field, groups_from, number};

// Model texts and the heading.
const BEFORE: usize = 18;

fn size(fields: &[u8], k: usize) -> usize {
    number(field(fields, k)) as usize
}

// Way, the two texts by their fields in the input, room.
fn generate<'a>(input: &'a [u8], fields: &'a [u8], buffer: &mut [u8]) -> Answer {
    cases::repeat(b"#", buffer);
    let room = cases::at_most(size(fields, 5), buffer);
    generation::generate(
        number(field(fields, 2)),
        field(input, size(fields, 3)),
        field(input, size(fields, 4)),
        &mut buffer[..room],
    )
}

// A place, and the byte to put there.
fn change(fields: &[u8], buffer: &mut [u8]) {
    let at = size(fields, 2);
    if at < buffer.len() {
        buffer[at] = (number(field(fields, 3)) % 256) as u8;
    }
}

// The place from which on zeros are put.
fn clear(fields: &[u8], buffer: &mut [u8]) {
    let from = size(fields, 2);
    if from < buffer.len() {
        cases::repeat(b"\x00", &mut buffer[from..]);
    }
}

// The letter of a command.
fn letter(text: &[u8]) -> u8 {
    text.first().copied().unwrap_or(0)
}

fn follow<'a>(input: &'a [u8], fields: &'a [u8], buffer: &mut [u8]) {
    io::write_all(1, field(fields, 1));
    match letter(field(fields, 0)) {
        b'g' => {
            // The image alone is wanted; what the answer says is tried by `i`.
            let _ = generate(input, fields, buffer);
        }
        b'i' => tries::image(generate(input, fields, buffer), buffer),
        b'h' => tries::image(handmade::write(size(fields, 2), buffer), buffer),
        b'b' => change(fields, buffer),
        b'z' => clear(fields, buffer),
        b'w' => tries::write_back(fields, buffer),
        b'r' => tries::run_from(fields, buffer),
        b't' => tries::both(fields, buffer),
        b'e' => tries::read(fields, buffer),
        _ => {}
    }
}

fn follow_all(input: &[u8], buffer: &mut [u8]) {
    for fields in groups_from(input, BEFORE, 7) {
        follow(input, fields, buffer);
    }
}

fn main() {
    let mut input = io::large_buffer();
    let n = io::read_full(0, &mut input);
    let mut buffer = show::marks();
    follow_all(&input[..n], &mut buffer);
}
