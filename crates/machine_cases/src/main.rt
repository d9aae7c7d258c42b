// Machines: situations/states, or the refusal, of every built-in model on every other, a line for each upstream model, first the sparing way and
// then the full way; the rows of TSO on ARM, both ways, a line for each state and letter with its fence and the next state; and the models on
// standard input, the sparing way and the full way: behind a heading, a name and two texts, with a bar behind each. These are at the limits: 4,096
// situations and one more, 255 states and one more, and both too many.
// The stored output comes from the model in `host/model`, which shares nothing with this code: `tools/expect-machine-cases` asks it for each pair.
#![tactic(auto)]

use cases::fields::{field, groups_from};
use machine::machine::{Machine, Outcome};
use models::model::Model;
use operations::alphabet;
use operations::alphabet::{ACCESSES, STRIDE, WORDS};
use rule::way::Way;
use shims::Models;

fn way_of(number: u64) -> Way {
    if number == 0 { Way::Sparing } else { Way::Full }
}

fn generate(way: u64, upstream: Model, target: Model, rows: &mut [u16]) -> Outcome {
    let way = way_of(way);
    making::make(
        Models {
            way,
            upstream,
            target,
        },
        rows,
    )
}

fn print_outcome(outcome: Outcome) {
    match outcome {
        Ok(x) => {
            io::print_decimal(1, x.situations as u64);
            io::write_all(1, b"/");
            io::print_decimal(1, x.states as u64);
        }
        Err(why) => {
            io::write_all(1, b"refused ");
            io::print_decimal(1, why.number());
        }
    }
}

fn try_models(way: u64, upstream: Model, target: Model) {
    let mut rows = [0u16; WORDS];
    print_outcome(generate(way, upstream, target, &mut rows));
}

fn built_in_pair(way: u64, upstream: u64, target: u64) {
    if let (Ok(from), Ok(onto)) = (built_ins::built_in(upstream), built_ins::built_in(target)) {
        io::write_all(1, b" ");
        try_models(way, from, onto);
    }
}

fn built_in_row(way: u64, upstream: u64) {
    for target in 0..16 {
        built_in_pair(way, upstream, target);
    }
}

fn built_in_line(way: u64, upstream: u64) {
    io::print_decimal(1, upstream);
    built_in_row(way, upstream);
    io::write_all(1, b"\n");
}

fn built_ins(way: u64) {
    for upstream in 0..16 {
        built_in_line(way, upstream);
    }
}

fn print_letter(letter: usize) {
    io::write_all(1, b" ");
    if letter < ACCESSES {
        let byte = [alphabet::letter_byte(letter)];
        io::write_all(1, &byte);
    } else {
        io::print_decimal(1, (letter - ACCESSES) as u64);
    }
    io::write_all(1, b" ");
}

fn print_word(word: u64) {
    let fence = word / 256;
    if fence == 255 {
        io::write_all(1, b"-");
    } else {
        io::print_decimal(1, fence);
    }
    io::write_all(1, b" ");
    io::print_decimal(1, word % 256);
    io::write_all(1, b"\n");
}

fn word_at(rows: &[u16], state: usize, letter: usize) -> u64 {
    if 255 <= state || STRIDE <= letter {
        return 0;
    }
    rows.get(state * STRIDE + letter)
        .map_or(0, |word| u64::from(*word))
}

fn letters_of(x: Machine) -> usize {
    ACCESSES + x.ups.min(STRIDE - ACCESSES)
}

fn print_state(rows: &[u16], state: usize, letters: usize) {
    for letter in 0..letters {
        io::print_decimal(1, state as u64);
        print_letter(letter);
        print_word(word_at(rows, state, letter));
    }
}

fn print_states(rows: &[u16], states: usize, letters: usize) {
    for state in 0..states {
        print_state(rows, state, letters);
    }
}

fn tso_on_arm(way: u64) {
    if let (Ok(from), Ok(onto)) = (built_ins::built_in(1), built_ins::built_in(15)) {
        let mut rows = [0u16; WORDS];
        match generate(way, from, onto, &mut rows) {
            Ok(x) => print_states(&rows, x.states, letters_of(x)),
            refused => print_outcome(refused),
        }
    }
}

// The fields: a name, the upstream text, the target text.
fn try_pair(fields: &[u8]) {
    io::write_all(1, field(fields, 0));
    match (
        models::reader::read(field(fields, 1)),
        models::reader::read(field(fields, 2)),
    ) {
        (Ok(from), Ok(onto)) => {
            io::write_all(1, b", ");
            try_models(0, from, onto);
            io::write_all(1, b", ");
            try_models(1, from, onto);
            io::write_all(1, b"\n");
        }
        (Ok(_), Err(_)) => {
            io::write_all(1, b": the target text is refused\n");
        }
        (Err(_), _) => {
            io::write_all(1, b": the upstream text is refused\n");
        }
    }
}

fn try_pairs(input: &[u8]) {
    for fields in groups_from(input, 1, 3) {
        try_pair(fields);
    }
}

fn main() {
    built_ins(0);
    built_ins(1);
    tso_on_arm(0);
    tso_on_arm(1);
    let mut input = io::large_buffer();
    let n = io::read_full(0, &mut input);
    try_pairs(&input[..n]);
}
