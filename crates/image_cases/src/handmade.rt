// Images of more states than any built-in pair has.
use answers::Answer;
use image::machine::Header;
use operations::alphabet::{STRIDE, WORDS};

fn word(fence: usize, next: usize) -> u16 {
    (fence % 256 * 256 + next % 256) as u16
}

// In a machine of so many states, each kind of entry in turn: no fence, every target fence, refused, the last fence; every upstream fence.
fn word_at(states: usize, state: usize, letter: usize) -> u16 {
    if states <= state {
        return 0;
    }
    match letter {
        0 => word(255, if state + 1 < states { state + 1 } else { 0 }),
        1 => word(state % 16, state / 2),
        2 => if state % 2 == 0 {
            word(255, state)
        } else {
            word(254, 0)
        },
        3 => word(15, states - 1),
        _ => word(255, if letter <= state { state - letter } else { 0 }),
    }
}

fn fill(states: usize, rows: &mut [u16]) {
    for (j, row) in rows.iter_mut().enumerate() {
        *row = word_at(states, j / STRIDE, j % STRIDE);
    }
}

// A machine of so many states, with names of sixteen bytes and sixteen fences on both sides.
pub(crate) fn write(states: usize, out: &mut [u8]) -> Answer {
    cases::repeat(b"#", out);
    let mut rows = [0u16; WORDS];
    fill(states, &mut rows);
    let header = Header {
        way: 1,
        states: (states % 256) as u8,
        ups: 16,
        targets: 16,
        upstream: *b"ABCDEFGHIJKLMNOZ",
        target: *b"az09_AZ_09_az_09",
    };
    image::writer::write(header, &rows, out)
}
