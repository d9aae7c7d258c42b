// The call that reads an image and writes it back.
ghost use Rattle.std.specs.Prelude.{◌≡◌};
ghost use Rattle.ground.specs.Bytes.{at};
ghost use Rattle.answers.specs.Given.{Delivers};
ghost use Rattle.image.specs.Calls.{written_back, header_as, Rewrites};

use crate::{reader, writer};
use answers::Answer;
use operations::alphabet::{STRIDE, WORDS};

fn write_back(image: &[u8], out: &mut [u8]) -> Answer
    ensures { Delivers (written_back image.now) out.old result out.new }
{
    let mut rows = [0u16; WORDS];
    let header = reader::read(image, &mut rows)?;
    let n = ground::wide(header.states) * STRIDE;
    writer::write(header, &rows[..n], out)
}

// A number that a header tells: a byte of the image.
fn header_number(image: &[u8], i: usize) -> u64
    ensures { result ≡ at image.now i }
{
    ground::byte_at(image, i) as u64
}

// Way, states, upstream fences and target fences, of an image that was written back.
fn header_of(image: &[u8], answer: Answer) -> [u64; 4]
    ensures { result ≡ header_as image.now answer }
{
    match answer {
        Ok(_) => [
            header_number(image, 3),
            header_number(image, 4),
            header_number(image, 5),
            header_number(image, 6),
        ],
        Err(_) => [0; 4],
    }
}

// Reads an image and writes it back; the header is told with it, zeros where refused.
pub fn rewrite(image: &[u8], header: &mut [u64; 4], out: &mut [u8]) -> Answer
    ensures { Rewrites image.now out.old header.new result out.new }
{
    let answer = write_back(image, out);
    *header = header_of(image, answer);
    answer
}
