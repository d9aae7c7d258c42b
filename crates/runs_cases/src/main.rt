// Direct runs, a line for each: the case, its way, the five numbers of the answer, the output in brackets, and whether the buffer is as it was
// behind the output. The cases stand on standard input: behind a heading, seven fields for each, with a bar behind each field. They are those of
// document 01: the streams to try, the traps, the limits, and the refusals in their order.
// The cases and the stored output come from `tools/expect-runs-cases`, which asks the model in `host/model`; that shares nothing with this code.
#![tactic(auto)]

use answers::Answer;
use cases::fields::{field, groups_from, number};

// In each of the programs: a crate that prints for them could promise nothing of what it prints.
fn print_answer(answer: Answer) {
    let mut line = [0u8; 104];
    let told = cases::answer_text(answer, &mut line);
    io::write_all(1, cases::output_of(told, &line));
}

fn print_kept(buffer: &[u8], from: usize) {
    if cases::kept(buffer, from) {
        io::write_all(1, b" kept\n");
    } else {
        io::write_all(1, b" changed\n");
    }
}

fn print_run<'a>(name: &'a [u8], way: u64, answer: Answer, buffer: &'a [u8]) {
    io::write_all(1, name);
    io::write_all(1, b", way ");
    io::print_decimal(1, way);
    io::write_all(1, b": ");
    print_answer(answer);
    let output = cases::output_of(answer, buffer);
    io::write_all(1, b" [");
    io::write_all(1, output);
    io::write_all(1, b"]");
    print_kept(buffer, output.len());
}

// The fields: the case, its way, the room of the buffer, the stream's length and the bytes that it repeats, the upstream text, the target text.
fn run_case(fields: &[u8]) {
    let mut stream = [0u8; 4097];
    cases::repeat(field(fields, 4), &mut stream);
    let length = number(field(fields, 3));
    let mut buffer = [b'#'; 8192];
    let room = cases::at_most(number(field(fields, 2)) as usize, &buffer);
    let way = number(field(fields, 1));
    let answer = runs::run(
        way,
        field(fields, 5),
        field(fields, 6),
        cases::front(&stream, length as usize),
        &mut buffer[..room],
    );
    print_run(field(fields, 0), way, answer, &buffer);
}

fn run_cases(input: &[u8]) {
    for fields in groups_from(input, 1, 7) {
        run_case(fields);
    }
}

fn main() {
    let mut input = io::large_buffer();
    let n = io::read_full(0, &mut input);
    run_cases(&input[..n]);
}
