// The sixteen built-in models.
#![tactic(auto)]

mod numbers;

ghost use Rattle.std.specs.Prelude.{◌≡◌};
ghost use Rattle.answers.specs.Given.{Delivers};
ghost use Rattle.built_ins.specs.BuiltIns.{built_in_reading, built_in_given};

use answers::{Answer, Refusal};
use models::model::Reading;

// The built-in model of a number.
pub fn built_in(number: u64) -> Reading
    ensures { result ≡ built_in_reading number }
{
    if 15 < number {
        return Err(Refusal::OutOfRange);
    }
    Ok(numbers::built_model(number as usize))
}

// Writes the text of a built-in model.
pub fn write_built_in(number: u64, out: &mut [u8]) -> Answer
    ensures { Delivers (built_in_given number) out.old result out.new }
{
    writing::write_reading(built_in(number), out)
}
