// The machine of two models that were read: the models are opened here for every call that makes a machine of them.
#![tactic(auto)]

ghost use Rattle.making.specs.Made.{MachineMade};

use machine::machine::Outcome;
use shims::Models;

// Makes the machine of the upstream model on the target model, its rows to the front of `rows`.
pub fn make(models: Models, rows: &mut [u16]) -> Outcome
    ensures { MachineMade models rows.old result rows.new }
{
    let sides = shims::sides_of(&models);
    machine::generate(sides.shim, sides.fences, sides.targets, rows)
}
