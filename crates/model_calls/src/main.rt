// Tries the calls on models. It writes the text of each built-in model and reads it back, compares every two of them, and then reads each
// of the texts on standard input, which have a bar behind each, behind a heading.
#![tactic(auto)]

use answers::Answer;
use cases::fields::{field, groups_from};
use comparison::Compared;

// In each of the programs: a crate that prints for them could promise nothing of what it prints.
fn print_line(answer: Answer) {
    let mut line = [0u8; 104];
    let told = cases::answer_text(answer, &mut line);
    io::write_all(1, cases::output_of(told, &line));
    io::write_all(1, b"\n");
}

// Reads a text, writes it back to a buffer of so many bytes, and says whether the bytes are the same again and those behind them kept.
fn try_text(text: &[u8], room: usize) {
    let mut out = [b'#'; 1024];
    let n = cases::at_most(room, &out);
    let answer = writing::rewrite(text, &mut out[..n]);
    print_line(answer);
    let back = cases::output_of(answer, &out);
    if check::same(back, text) {
        io::write_all(1, b"same\n");
    }
    if !cases::kept(&out, back.len()) {
        io::write_all(1, b"more was written\n");
    }
}

fn try_built_in(number: u64) {
    let mut out = [0u8; 1024];
    let answer = built_ins::write_built_in(number, &mut out);
    print_line(answer);
    let text = cases::output_of(answer, &out);
    io::write_all(1, text);
    let n = text.len();
    if 0 < n {
        try_text(text, 1024);
        try_text(text, n);
        try_text(text, n - 1);
    }
}

fn try_built_ins() {
    for n in 0..17 {
        try_built_in(n);
    }
}

fn print_compared(compared: Compared) {
    match compared {
        Ok(comparison) => {
            io::print_decimal(1, comparison.number());
        }
        Err(why) => {
            io::write_all(1, b"refused ");
            io::print_decimal(1, why.number());
            io::write_all(1, b" at ");
            io::print_decimal(1, why.place());
        }
    }
}

fn compare_built_ins(first: u64, second: u64) {
    let mut one = [0u8; 1024];
    let a = built_ins::write_built_in(first, &mut one);
    let mut two = [0u8; 1024];
    let b = built_ins::write_built_in(second, &mut two);
    print_compared(comparison::compare(cases::output_of(a, &one), cases::output_of(b, &two)));
}

fn compare_row(first: u64) {
    for second in 0..16 {
        compare_built_ins(first, second);
    }
    io::write_all(1, b"\n");
}

fn compare_all() {
    for first in 0..16 {
        compare_row(first);
    }
}

// A text by itself, and beside a good one in a comparison: the refusal of the first text goes first.
fn try_input(text: &[u8]) {
    try_text(text, 1024);
    let mut out = [0u8; 1024];
    let answer = built_ins::write_built_in(1, &mut out);
    let good = cases::output_of(answer, &out);
    print_compared(comparison::compare(text, good));
    io::write_all(1, b" ");
    print_compared(comparison::compare(good, text));
    io::write_all(1, b"\n");
}

// Behind the heading.
fn try_inputs(input: &[u8]) {
    for fields in groups_from(input, 1, 1) {
        try_input(field(fields, 0));
    }
}

fn main() {
    try_built_ins();
    compare_all();
    let mut input = io::large_buffer();
    let n = io::read_full(0, &mut input);
    try_inputs(&input[..n]);
}
