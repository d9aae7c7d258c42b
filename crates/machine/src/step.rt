// One step of the rule, by a letter of the alphabet.
ghost use Rattle.std.specs.Prelude.{◌≡◌};
ghost use Rattle.machine.specs.Shim.{step_answer};
ghost use Rattle.machine.specs.inner.Explore.{meant};
ghost use Rattle.machine.specs.inner.Sides.{answered};

use operations::alphabet;
use operations::alphabet::ACCESSES;
use rule::situation::Situation;
use rule::way;
use rule::way::{Shim, Step};

// A shim with the packed tables of each side's fences.
#[derive(Clone, Copy)]
pub(crate) struct Sides<'a> {
    pub(crate) shim: Shim,
    pub(crate) ups: &'a [u64],
    pub(crate) fences: &'a [u64],
}

fn put_before(step: Step) -> Option<(usize, Situation)>
    ensures { meant result ≡ step_answer step }
{
    match step {
        Step::Plain(next) => Some((255, next)),
        Step::Fenced(g, next) => Some((g, next)),
        Step::Refused => None,
    }
}

// What letter a gets in situation s: the output, a fence's number or 255 for none, and the next situation; nothing where it is refused.
pub(crate) fn answer<'a>(sides: Sides<'a>, s: Situation, a: usize) -> Option<(usize, Situation)>
    ensures { meant result ≡ answered sides.entry s a }
{
    if a < ACCESSES {
        return put_before(way::take(sides.shim, sides.fences, s, alphabet::kind_of(a)));
    }
    Some((255, s.asks(way::fence_table(sides.ups, a - ACCESSES))))
}
