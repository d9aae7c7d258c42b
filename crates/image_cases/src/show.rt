// How the answers on images are printed.
ghost use Rattle.std.specs.Prelude.{◌≡◌, length};

use answers::{Answer, Verdict};

// Room for the longest output and a byte more, of a byte that tells what is kept. The large array stands in a function of its own, so that few
// proofs hold it.
pub(crate) fn marks() -> [u8; 8193]
    ensures { 8193 ≡ length result }
{
    [b'#'; 8193]
}

// In each of the programs: a crate that prints for them could promise nothing of what it prints.
pub(crate) fn print_answer(answer: Answer) {
    let mut line = [0u8; 104];
    let told = cases::answer_text(answer, &mut line);
    io::write_all(1, cases::output_of(told, &line));
}

pub(crate) fn print_kept(buffer: &[u8], from: usize) {
    if cases::kept(buffer, from) {
        io::write_all(1, b" kept");
    } else {
        io::write_all(1, b" changed");
    }
}

// Way, states, upstream fences, target fences.
pub(crate) fn print_header(header: [u64; 4]) {
    io::print_decimal(1, header[0]);
    io::write_all(1, b" ");
    io::print_decimal(1, header[1]);
    io::write_all(1, b" ");
    io::print_decimal(1, header[2]);
    io::write_all(1, b" ");
    io::print_decimal(1, header[3]);
}

pub(crate) fn print_same<'a>(image: &'a [u8], back: &'a [u8]) {
    if check::same(image, back) {
        io::write_all(1, b", the same,");
    } else {
        io::write_all(1, b", not it,");
    }
}

// The CRC-32 of zip and gzip, which tells bytes apart wherever they stand.
fn crc_bit(rest: u32) -> u32 {
    if rest % 2 == 0 {
        rest / 2
    } else {
        rest / 2 ^ 3988292384
    }
}

fn crc_byte(sum: u32, byte: u8) -> u32 {
    (0..8).fold(sum ^ u32::from(byte), |rest, _| crc_bit(rest))
}

fn crc(bytes: &[u8]) -> u32 {
    !bytes
        .iter()
        .fold(u32::MAX, |sum, byte| crc_byte(sum, *byte))
}

pub(crate) fn print_crc(bytes: &[u8]) {
    io::write_all(1, b" ");
    io::print_hex(1, crc(bytes) as u64, 8);
}

// A short output, or the CRC of a long one.
pub(crate) fn print_output(output: &[u8]) {
    if output.len() < 32 {
        io::write_all(1, b" [");
        io::write_all(1, output);
        io::write_all(1, b"]");
    } else {
        print_crc(output);
    }
}

// The check of each block.
pub(crate) fn print_checks(image: &[u8]) {
    for block in image.chunks_exact(512) {
        io::write_all(1, b" ");
        for byte in &block[510..] {
            io::print_hex(1, u64::from(*byte), 2);
        }
    }
}

pub(crate) fn print_words(words: &[u16]) {
    for word in words {
        io::write_all(1, b" ");
        io::print_hex(1, u64::from(*word), 4);
    }
}

pub(crate) fn print_verdict(verdict: Verdict) {
    match verdict {
        Ok(()) => {
            io::write_all(1, b"accepted");
        }
        Err(why) => {
            io::write_all(1, b"refused ");
            io::print_decimal(1, why.number());
            io::write_all(1, b" at ");
            io::print_decimal(1, why.place());
        }
    }
}
