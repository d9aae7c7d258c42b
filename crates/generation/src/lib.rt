// Generating to an image: two model texts, a way and a buffer.
#![tactic(auto)]

ghost use Rattle.std.specs.Prelude.{◌≡◌};
ghost use Rattle.answers.specs.Given.{Delivers, Answers};
ghost use Rattle.generation.specs.Generating.{header_for, given_by, MachineGiven, ImageGiven};
ghost use Rattle.generation.specs.inner.Small.{Small, SmallMade};

use answers::Answer;
use image::machine::Header;
use machine::machine::{Machine, Outcome};
use operations::alphabet::WORDS;
use shims::Models;

// What block 0 says of a machine and of its models' names.
fn header_for(machine: Machine, models: Models) -> Header
    requires { Small machine }
    ensures { result ≡ header_for machine models }
{
    let up = models.upstream;
    let on = models.target;
    let up_name = up.name;
    let on_name = on.name;
    let first = up_name.bytes;
    let second = on_name.bytes;
    Header {
        way: machine.way as u8,
        states: machine.states as u8,
        ups: machine.ups as u8,
        targets: machine.targets as u8,
        upstream: first,
        target: second,
    }
}

// Writes the image of the machine that was made, or answers why there is none.
fn write_made(made: Outcome, models: Models, rows: &[u16], out: &mut [u8]) -> Answer
    requires { SmallMade made }
    ensures { Delivers (given_by made models rows.now) out.old result out.new }
{
    image::writer::write(header_for(made?, models), rows, out)
}

// Makes the machine between two models, and writes its image. It owns the machine's rows, which hold 255 states.
fn generate_models(models: Models, out: &mut [u8]) -> Answer
    ensures { Answers (MachineGiven models) out.old result out.new }
{
    let mut rows = [0u16; WORDS];
    let made = making::make(models, &mut rows);
    write_made(made, models, &rows, out)
}

// Generates the machine of the upstream model on the target model, and writes its image. A refusal writes nothing.
pub fn generate<'a>(way: u64, upstream: &'a [u8], target: &'a [u8], out: &mut [u8]) -> Answer
    ensures { Answers (ImageGiven way upstream.now target.now) out.old result out.new }
{
    generate_models(shims::read_both(way, upstream, target)?, out)
}
