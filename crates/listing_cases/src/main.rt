// Inputs worth showing, each behind a line that says what it is for. They stand on standard input: behind a heading, three fields for each, with a
// bar behind each field. The cases and the stored output come from `tools/expect-listing-cases`, which asks the model in `host/model`.
#![tactic(auto)]

use cases::fields::{field, groups_from, number};

// An input of so many bytes that begins with the text, is filled up by loads, and ends in a line feed.
fn show_filled(text: &[u8], size: u64) {
    let mut input = [b'l'; 32769];
    let n = cases::at_most(size as usize, &input);
    let begun = cases::at_most(n, text);
    input[..begun].copy_from_slice(&text[..begun]);
    if 0 < n {
        input[n - 1] = b'\n';
        let _ = show::show(cases::front(&input, n));
    }
}

// The fields: the case, the size that the input is filled up to, or 0, and the text that it begins with.
fn show_case(fields: &[u8]) {
    io::write_all(1, field(fields, 0));
    io::write_all(1, b":\n");
    let size = number(field(fields, 1));
    if size == 0 {
        let _ = show::show(field(fields, 2));
        return;
    }
    show_filled(field(fields, 2), size);
}

fn show_cases(input: &[u8]) {
    for fields in groups_from(input, 1, 3) {
        show_case(fields);
    }
}

fn main() {
    let mut input = io::large_buffer();
    let n = io::read_full(0, &mut input);
    show_cases(&input[..n]);
}
