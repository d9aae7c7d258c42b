// The two ways of choosing a fence, and the step that an access takes.
ghost use Rattle.std.specs.Prelude.{◌≡◌, length};
ghost use Rattle.ground.specs.Lowest.{lowest};
ghost use Rattle.rule.specs.Pairs.{table_at};
ghost use Rattle.rule.specs.Rule.{way_number, taken, last};
ghost use Rattle.rule.specs.Situation.{serves, choice_of, stepped};
ghost use Rattle.rule.specs.Sides.{target_of};

use crate::situation::Situation;
use operations::Kind;
use tables::table::Table;

#[derive(Clone, Copy)]
pub enum Way {
    Sparing,
    Full,
}

// What stays the same through a run, but for the fences' tables, which are lent beside it: the way and the two defaults.
#[derive(Clone, Copy)]
pub struct Shim {
    pub way: Way,
    pub upstream: Table,
    pub target: Table,
}

// What a way puts before an access. The three outcomes are the rule's own: as a Result of an Option every match on them would be two deep.
#[derive(Clone, Copy)]
pub enum Choice {
    Nothing,
    Fence(usize),
    Refused,
}

// An access taken, with nothing or with a fence before it, and the situation after it; or refused: the same three outcomes.
#[derive(Clone, Copy)]
pub enum Step {
    Plain(Situation),
    Fenced(usize, Situation),
    Refused,
}

// A way's number in a call and in an image.
pub fn way_number(way: Way) -> u64
    ensures { result ≡ way_number way }
{
    match way {
        Way::Sparing => 0,
        Way::Full => 1,
    }
}

// The table of a fence; one that is not there orders nothing.
pub fn fence_table(fences: &[u64], number: usize) -> Table
    ensures { result ≡ table_at fences.now number }
{
    match fences.get(number) {
        Some(&packed) => Table { packed },
        None => Table::NONE,
    }
}

// What the way puts before an access that needs `pending`.
fn choose(way: Way, fences: &[u64], pending: Table) -> Choice
    ensures { result ≡ choice_of way fences.now pending }
{
    if Table::NONE.at_least(pending) {
        return Choice::Nothing;
    }
    match way {
        Way::Sparing => taken(lowest_fence(fences, pending)),
        Way::Full => last_fence(fences, pending),
    }
}

// The fence that was found, or a refusal.
fn taken(found: Option<usize>) -> Choice
    ensures { result ≡ taken found }
{
    match found {
        Some(g) => Choice::Fence(g),
        None => Choice::Refused,
    }
}

// The lowest-numbered fence that will do.
fn lowest_fence(fences: &[u64], pending: Table) -> Option<usize>
    ensures { result ≡ lowest (serves fences.now pending) 0 (length fences.now) }
{
    (0..fences.len()).find(|g| fence_table(fences, *g).at_least(pending))
}

// The highest-numbered fence, if it will do.
fn last_fence(fences: &[u64], pending: Table) -> Choice
    ensures { result ≡ last (serves fences.now pending) (length fences.now) }
{
    let n = fences.len();
    if 0 < n && fence_table(fences, n - 1).at_least(pending) {
        Choice::Fence(n - 1)
    } else {
        Choice::Refused
    }
}

// An access of this kind, in this situation, with the target's fences.
pub fn take(shim: Shim, fences: &[u64], situation: Situation, kind: Kind) -> Step
    ensures { result ≡ stepped shim.way shim.upstream (target_of shim fences.now) situation kind }
{
    match choose(shim.way, fences, situation.pending(kind)) {
        Choice::Nothing => Step::Plain(situation.joins(shim.upstream, shim.target, kind)),
        Choice::Fence(g) => {
            let offered = situation.offers(fence_table(fences, g));
            Step::Fenced(g, offered.joins(shim.upstream, shim.target, kind))
        }
        Choice::Refused => Step::Refused,
    }
}
