// What `shimlist` prints: from the bytes of an input to the bytes of its listing.
#![tactic(auto)]

mod shape;

ghost use Rattle.answers.specs.Given.{Answers};
ghost use Rattle.listing.specs.Shape.{lines, through, ending_of, with_ending, with_target};
ghost use Rattle.listing.specs.Listed.{ShapeListed, Listed};

use answers::{Answer, Refusal};

// Lists an input whose texts were found, and whose way and stream stand in the rest.
fn list_tail<'a>(upstream: &'a [u8], target: &'a [u8], tail: &'a [u8], out: &mut [u8]) -> Answer
    ensures { Answers (ShapeListed (with_ending upstream.now target.now (ending_of (lines tail.now))))
        out.old result out.new }
{
    match shape::tail_of(tail) {
        None => Err(Refusal::NotOfTheForm(0)),
        Some(found) => {
            let end = tail.len() - 1;
            listed::list_parts(found.way, upstream, target, &tail[found.stream..end], out)
        }
    }
}

// Lists an input whose first text was found.
fn list_rest<'a>(upstream: &'a [u8], rest: &'a [u8], out: &mut [u8]) -> Answer
    ensures { Answers (ShapeListed (with_target upstream.now (through (lines rest.now))))
        out.old result out.new }
{
    match shape::text_end(rest) {
        None => Err(Refusal::NotOfTheForm(0)),
        Some(n) => list_tail(upstream, &rest[..n], &rest[n..], out),
    }
}

// The listing of an input: two model texts, a way and a stream. A refusal writes nothing.
pub fn list(input: &[u8], out: &mut [u8]) -> Answer
    ensures { Answers (Listed input.now) out.old result out.new }
{
    if 32768 < input.len() {
        return Err(Refusal::OverLimit);
    }
    match shape::text_end(input) {
        None => Err(Refusal::NotOfTheForm(0)),
        Some(n) => list_rest(&input[..n], &input[n..], out),
    }
}
