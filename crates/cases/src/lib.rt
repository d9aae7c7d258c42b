// What the programs that run the calls on cases share: reading the cases, and the texts of what a call answered and left in its buffer. The
// programs print them: no contract can say what is written to standard output, so nothing here writes to it.
#![tactic(auto)]

ghost use Rattle.std.specs.Prelude.{◌≡◌, min, [], ◌∷◌, ◌++◌, length, take, drop, slice_index};
ghost use Rattle.ground.specs.Bytes.{bytes};
ghost use Rattle.answers.specs.Answer.{numbers_of};
ghost use Rattle.answers.specs.Given.{gives, Delivers};
ghost use Rattle.printing.specs.Decimal.{decimal};
ghost use Rattle.printing.specs.Putting.{PutOn};
ghost use Rattle.io.specs.Counts.{IsPrefixLen};
ghost use Rattle.cases.specs.Buffer.{untouched, Repeats};
ghost use Rattle.cases.specs.Printed.{with_blanks};

pub mod fields;

use answers::Answer;
use printing::Page;

// The first n bytes, or all of them where there are fewer.
pub fn front(bytes: &[u8], n: usize) -> &[u8]
    ensures { result.now ≡ take n bytes.now }
{
    &bytes[..n.min(bytes.len())]
}

// How much of a buffer a call is given that should have so much room: `&mut buffer[..n]` then needs no proof file.
pub fn at_most(room: usize, buffer: &[u8]) -> usize
    ensures prefix_len { IsPrefixLen result buffer.now }
    ensures value { result ≡ min room (length buffer.now) }
{
    room.min(buffer.len())
}

// Fills a buffer with a piece, over and over; a piece of nothing leaves it as it is.
pub fn repeat(piece: &[u8], out: &mut [u8])
    ensures repeats { Repeats piece.now out.new (length out.new) }
    ensures out_unchanged { length piece.now ≡ 0 → out.new ≡ out.old }
{
    if piece.len() == 0 {
        return;
    }
    for (i, byte) in out.iter_mut().enumerate() {
        *byte = piece[i % piece.len()];
    }
}

fn behind(bytes: &[u8], at: usize) -> &[u8]
    ensures { result.now ≡ drop at bytes.now }
{
    &bytes[at.min(bytes.len())..]
}

// Whether every byte from a place on is `#`, of which buffers are full before a call.
pub fn kept(buffer: &[u8], from: usize) -> bool
    ensures { result ≡ untouched (drop from buffer.now) }
{
    behind(buffer, from).iter().all(|byte| *byte == b'#')
}

// A number behind a blank.
fn put_next(page: &mut Page, number: u64)
    ensures { PutOn page.old page.new (bytes " " ++ decimal number) }
{
    page.put(b" ");
    page.put_decimal(number);
}

fn put_five(page: &mut Page, a: u64, b: u64, c: u64, d: u64, e: u64)
    ensures { PutOn page.old page.new (with_blanks (a ∷ b ∷ c ∷ d ∷ e ∷ [])) }
{
    page.put_decimal(a);
    put_next(page, b);
    put_next(page, c);
    put_next(page, d);
    put_next(page, e);
}

// Five numbers have at most twenty digits each, and four blanks stand between.
fn five_text(a: u64, b: u64, c: u64, d: u64, e: u64, out: &mut [u8]) -> Answer
    ensures { Delivers (gives (with_blanks (a ∷ b ∷ c ∷ d ∷ e ∷ [])) 0 0) out.old result out.new }
{
    let mut line = [0u8; 104];
    let mut page = Page::new(&mut line);
    put_five(&mut page, a, b, c, d, e);
    answers::write_out(page.text(), 0, 0, out)
}

// The five numbers of an answer, with blanks between: number, place, written, fences, state.
pub fn answer_text(answer: Answer, out: &mut [u8]) -> Answer
    ensures { Delivers (gives (with_blanks (numbers_of answer)) 0 0) out.old result out.new }
{
    let all = answers::numbers(answer);
    five_text(all[0], all[1], all[2], all[3], all[4], out)
}

// What a call has put out: the first bytes of its buffer, as many as it says that it has written.
pub fn output_of(answer: Answer, buffer: &[u8]) -> &[u8]
    ensures { result.now ≡ take (slice_index (numbers_of answer) 2) buffer.now }
{
    let numbers = answers::numbers(answer);
    front(buffer, numbers[2] as usize)
}
