// The listing of an input's parts, which are two model texts, a way and a stream; and the line of a refusal.
#![tactic(auto)]

mod print;

ghost use Rattle.answers.specs.Given.{gives, Delivers, Answers};
ghost use Rattle.listed.specs.Printed.{listing, refusal_line};
ghost use Rattle.listed.specs.Parts.{MachineListed, ModelsListed, PartsListed};
ghost use Rattle.listed.specs.inner.Limits.{Listable, Sixteen, RunOutput};
ghost use Rattle.listed.specs.inner.Making.{made_listing, made_given, MadeListable};

use answers::{Answer, Refusal};
use machine::machine::{Machine, Outcome};
use operations::alphabet::WORDS;
use printing::Page;
use rule::way::Way;
use shims::Models;

// Writes the line of a refusal, `refused N at K`.
pub fn refusal_line(why: Refusal, out: &mut [u8]) -> Answer
    ensures { Delivers (gives (refusal_line why) 0 0) out.old result out.new }
{
    let mut line = [0u8; 53];
    let mut page = Page::new(&mut line);
    print::put_refusal(&mut page, why.number(), why.place());
    answers::write_out(page.text(), 0, 0, out)
}

// Writes a listing. It owns the buffer that the listing is put into, so that a refusal writes nothing.
fn write_listing<'a>(
    models: Models,
    machine: Machine,
    rows: &'a [u16],
    output: &'a [u8],
    fences: usize,
    out: &mut [u8],
) -> Answer
    requires { Listable machine rows.now output.now fences }
    ensures { Delivers (gives (listing (made_listing models machine rows.now output.now fences)) fences 0)
        out.old result out.new }
{
    let mut text = [0u8; 73728];
    let mut page = Page::new(&mut text);
    print::put_listing(&mut page, models, machine, rows, output, fences);
    answers::write_out(page.text(), fences, 0, out)
}

// Writes the listing of the machine that was made, or answers why there is none.
fn list_made<'a>(
    made: Outcome,
    models: Models,
    rows: &'a [u16],
    output: &'a [u8],
    fences: usize,
    out: &mut [u8],
) -> Answer
    requires { MadeListable made rows.now output.now fences }
    ensures { Delivers (made_given made models rows.now output.now fences)
        out.old result out.new }
{
    write_listing(models, made?, rows, output, fences, out)
}

// Makes the machine of two models and lists it with a run's output. It owns the machine's rows, which hold 255 states.
fn list_machine(models: Models, output: &[u8], fences: usize, out: &mut [u8]) -> Answer
    requires { Sixteen models × RunOutput output.now fences }
    ensures { Answers (MachineListed models output.now) out.old result out.new }
{
    let mut rows = [0u16; WORDS];
    let made = making::make(models, &mut rows);
    list_made(made, models, &rows, output, fences, out)
}

// Lists two models that were read. The stream is run first, so that its refusals go before the machine's.
fn list_models(models: Models, stream: &[u8], out: &mut [u8]) -> Answer
    requires { Sixteen models }
    ensures { Answers (ModelsListed models stream.now) out.old result out.new }
{
    let mut output = [0u8; 8192];
    let ran = runs::run_models(models, stream, &mut output)?;
    list_machine(models, &output[..ran.written], ran.fences, out)
}

// Lists the parts of an input: the texts are read, each once.
pub fn list_parts<'a>(
    way: Way,
    upstream: &'a [u8],
    target: &'a [u8],
    stream: &'a [u8],
    out: &mut [u8],
) -> Answer
    ensures { Answers (PartsListed (record {
      upstream = upstream.now;
      target = target.now;
      way = way;
      stream = stream.now;
    }))
        out.old result out.new }
{
    list_models(shims::read_texts(way, upstream, target)?, stream, out)
}
