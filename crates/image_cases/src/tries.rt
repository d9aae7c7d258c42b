// What is tried with an image at the front of a buffer.
use crate::{show, size};
use answers::Answer;
use cases::fields::{field, number};

// Reads an image and writes it back into a buffer of so many bytes: the answer, the header, whether the bytes written are the image, and
// whether the rest of the buffer is as it was.
fn rewrite(image: &[u8], room: usize) {
    let mut buffer = show::marks();
    let mut header = [1u64; 4];
    let n = cases::at_most(room, &buffer);
    let answer = image::calls::rewrite(image, &mut header, &mut buffer[..n]);
    show::print_answer(answer);
    io::write_all(1, b", ");
    show::print_header(header);
    let back = cases::output_of(answer, &buffer);
    show::print_same(image, back);
    show::print_kept(&buffer, back.len());
}

// An image that was made: the answer, whether the rest of the buffer is as it was, its checks, its CRC, and what writing it back gives.
pub(crate) fn image(answer: Answer, buffer: &[u8]) {
    let image = cases::output_of(answer, buffer);
    show::print_answer(answer);
    show::print_kept(buffer, image.len());
    show::print_checks(image);
    show::print_crc(image);
    io::write_all(1, b"; ");
    rewrite(image, 7168);
    io::write_all(1, b"\n");
}

// Length, room.
pub(crate) fn write_back(fields: &[u8], buffer: &[u8]) {
    rewrite(cases::front(buffer, size(fields, 2)), size(fields, 3));
    io::write_all(1, b"\n");
}

// Runs a stream into a buffer of so many bytes: the answer, the output or, of a long one, its CRC, and whether the rest is as it was.
fn run<'a>(image: &'a [u8], start: u64, stream: &'a [u8], room: usize) {
    let mut buffer = show::marks();
    let n = cases::at_most(room, &buffer);
    let answer = image_runs::run(image, start, stream, &mut buffer[..n]);
    show::print_answer(answer);
    let output = cases::output_of(answer, &buffer);
    show::print_output(output);
    show::print_kept(&buffer, output.len());
    io::write_all(1, b"\n");
}

// Start, the stream's length and what it repeats, room. Each of these images has 1,024 bytes.
pub(crate) fn run_from(fields: &[u8], buffer: &[u8]) {
    let mut stream = [0u8; 4097];
    cases::repeat(field(fields, 4), &mut stream);
    run(
        cases::front(buffer, 1024),
        number(field(fields, 2)),
        cases::front(&stream, size(fields, 3)),
        size(fields, 5),
    );
}

// Length. The image is written back, and run over.
pub(crate) fn both(fields: &[u8], buffer: &[u8]) {
    let image = cases::front(buffer, size(fields, 2));
    rewrite(image, 7168);
    io::write_all(1, b"; run ");
    run(image, 0, b"ssl0l", 8192);
}

fn read_words(image: &[u8], rows: &mut [u16]) {
    let verdict = image::reader::read(image, rows).map(|_| ());
    show::print_verdict(verdict);
    show::print_words(rows);
    io::write_all(1, b"\n");
}

// How many words the image is read into.
pub(crate) fn read(fields: &[u8], buffer: &[u8]) {
    let mut rows = [7u16; 61];
    let n = size(fields, 2);
    if n <= 61 {
        read_words(cases::front(buffer, 1024), &mut rows[..n]);
    }
}
