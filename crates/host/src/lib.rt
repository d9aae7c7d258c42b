// The calls for the C host: numbers as themselves, a region as a pointer and a length, and the answer's five numbers through a pointer that
// every call sets whole. Each is one line over a call of a crate below. The static library that C links is `host_c`, which exports each under
// its name.
#![tactic(auto)]

ghost use Rattle.std.specs.Prelude.{◌≡◌};
ghost use Rattle.answers.specs.Answer.{numbers_of};
ghost use Rattle.answers.specs.Given.{Delivers, Answers};
ghost use Rattle.writing.specs.Calls.{back_given};
ghost use Rattle.built_ins.specs.BuiltIns.{built_in_given};
ghost use Rattle.comparison.specs.Comparison.{comparing};
ghost use Rattle.runs.specs.Call.{outcome};
ghost use Rattle.image.specs.Calls.{Rewrites};
ghost use Rattle.image_runs.specs.Run.{run_over};
ghost use Rattle.generation.specs.Generating.{ImageGiven};
ghost use Rattle.drawing.specs.Calls.{drawn};
ghost use Rattle.drawing_reader.specs.Undrawing.{Undrawn};
ghost use Rattle.listing.specs.Listed.{Listed};
ghost use Rattle.host.specs.Border.{number_in, relation_of, compared_as, Tells, TellsRelation};

use answers::{Answer, Done};
use comparison::Compared;

// Sets the five numbers, and returns the first of them, the refusal's number.
fn tell(what: Answer, answer: &mut [u64; 5]) -> u64
    ensures number { result ≡ number_in what }
    ensures numbers { answer.new ≡ numbers_of what }
{
    let numbers = answers::numbers(what);
    *answer = numbers;
    numbers[0]
}

#[unsafe(no_mangle)]
pub extern "C" fn shim_builtin(number: u64, out: &mut [u8], answer: &mut [u64; 5]) -> u64
    ensures { Tells (Delivers (built_in_given number) out.old) result answer.new out.new }
{
    tell(built_ins::write_built_in(number, out), answer)
}

#[unsafe(no_mangle)]
pub extern "C" fn shim_model(text: &[u8], out: &mut [u8], answer: &mut [u64; 5]) -> u64
    ensures { Tells (Delivers (back_given text.now) out.old) result answer.new out.new }
{
    tell(writing::rewrite(text, out), answer)
}

#[unsafe(no_mangle)]
pub extern "C" fn shim_run<'a>(
    way: u64,
    upstream: &'a [u8],
    target: &'a [u8],
    stream: &'a [u8],
    out: &mut [u8],
    answer: &mut [u64; 5],
) -> u64
    ensures { Tells (Delivers (outcome way upstream.now target.now stream.now) out.old)
        result answer.new out.new }
{
    tell(runs::run(way, upstream, target, stream, out), answer)
}

// Makes the machine of two models, and writes its image.
#[unsafe(no_mangle)]
pub extern "C" fn shim_generate<'a>(
    way: u64,
    upstream: &'a [u8],
    target: &'a [u8],
    out: &mut [u8],
    answer: &mut [u64; 5],
) -> u64
    ensures { Tells (Answers (ImageGiven way upstream.now target.now) out.old)
        result answer.new out.new }
{
    tell(generation::generate(way, upstream, target, out), answer)
}

// Reads an image and writes it back; the header is way, states, upstream fences and target fences, zeros where refused.
#[unsafe(no_mangle)]
pub extern "C" fn shim_image_read(
    image: &[u8],
    out: &mut [u8],
    header: &mut [u64; 4],
    answer: &mut [u64; 5],
) -> u64
    ensures { Tells (Rewrites image.now out.old header.new) result answer.new out.new }
{
    tell(image::calls::rewrite(image, header, out), answer)
}

// Runs an image's machine from a state; the answer's last number is the state at the end.
#[unsafe(no_mangle)]
pub extern "C" fn shim_image_run<'a>(
    image: &'a [u8],
    start: u64,
    stream: &'a [u8],
    out: &mut [u8],
    answer: &mut [u64; 5],
) -> u64
    ensures { Tells (Delivers (run_over image.now start stream.now) out.old)
        result answer.new out.new }
{
    tell(image_runs::run(image, start, stream, out), answer)
}

// The drawing of an image.
#[unsafe(no_mangle)]
pub extern "C" fn shim_draw(image: &[u8], out: &mut [u8], answer: &mut [u64; 5]) -> u64
    ensures { Tells (Delivers (drawn image.now) out.old) result answer.new out.new }
{
    tell(drawing::draw(image, out), answer)
}

// The image that a text is the drawing of.
#[unsafe(no_mangle)]
pub extern "C" fn shim_undraw(text: &[u8], out: &mut [u8], answer: &mut [u64; 5]) -> u64
    ensures { Tells (Answers (Undrawn text.now) out.old) result answer.new out.new }
{
    tell(drawing_reader::undraw(text, out), answer)
}

// The listing of an input: two models, a way and a stream.
#[unsafe(no_mangle)]
pub extern "C" fn shim_list(input: &[u8], out: &mut [u8], answer: &mut [u64; 5]) -> u64
    ensures { Tells (Answers (Listed input.now) out.old) result answer.new out.new }
{
    tell(listing::list(input, out), answer)
}

// The relation, 0 to 3, of the first to the second; 0 where a text is refused.
#[unsafe(no_mangle)]
pub extern "C" fn shim_compare<'a>(
    first: &'a [u8],
    second: &'a [u8],
    relation: &mut u64,
    answer: &mut [u64; 5],
) -> u64
    ensures { TellsRelation (comparing first.now second.now) result relation.new answer.new }
{
    let compared = comparison::compare(first, second);
    *relation = relation_in(compared);
    tell(as_answer(compared), answer)
}

fn relation_in(compared: Compared) -> u64
    ensures { result ≡ relation_of compared }
{
    match compared {
        Ok(is) => is.number(),
        Err(_) => 0,
    }
}

fn as_answer(compared: Compared) -> Answer
    ensures { result ≡ compared_as compared }
{
    compared?;
    Ok(Done {
        written: 0,
        fences: 0,
        state: 0,
    })
}
