// The minimal machine of two models and a way.
#![tactic(auto)]

mod explore;
mod index;
pub mod machine;
mod refine;
mod rows;
mod step;

ghost use Rattle.std.specs.Prelude.{◌≡◌, take};
ghost use Rattle.machine.specs.Generated.{Generated};
ghost use Rattle.machine.specs.inner.Stages.{Few, Makes, Unused, Searched, Sorted};

use crate::machine::{Machine, Outcome};
use crate::step::Sides;
use answers::Refusal;
use operations::alphabet::{ACCESSES, STRIDE};
use rule::way;
use rule::way::Shim;

// The fences that an operation can name.
fn named<'a>(fences: &'a [u64]) -> &'a [u64]
    ensures { result.now ≡ take 16 fences.now }
{
    &fences[..fences.len().min(16)]
}

// The states are found: writes their rows, if they fit.
fn write<'a>(
    sides: Sides<'a>,
    table: &'a [u32],
    classes: &'a [u8],
    count: usize,
    states: usize,
    rows: &mut [u16],
) -> Outcome
    requires { Sorted sides table.now classes.now count states }
    ensures { Makes sides.entry rows.old result rows.new }
{
    if rows.len() < states * STRIDE {
        return Err(Refusal::BufferTooSmall);
    }
    rows::write_rows(
        table,
        classes,
        rows,
        ACCESSES + sides.ups.len(),
        count,
        states,
    );
    Ok(Machine {
        way: way::way_number(sides.shim.way),
        situations: count,
        states,
        ups: sides.ups.len(),
        targets: sides.fences.len(),
    })
}

// The situations are found: finds the states among them.
fn sort<'a>(sides: Sides<'a>, table: &'a [u32], count: usize, rows: &mut [u16]) -> Outcome
    requires { Searched sides table.now count }
    ensures { Makes sides.entry rows.old result rows.new }
{
    let mut classes = [0u8; 4096];
    match refine::refine(table, &mut classes, count, ACCESSES + sides.ups.len()) {
        Some(states) => write(sides, table, &classes, count, states, rows),
        None => Err(Refusal::TooManyStates),
    }
}

// Finds the situations, in a table of answers in which nothing has been written.
fn search<'a>(sides: Sides<'a>, table: &mut [u32], rows: &mut [u16]) -> Outcome
    requires { Few sides × Unused table.old }
    ensures { Makes sides.entry rows.old result rows.new }
{
    match explore::explore(sides, table) {
        Some(count) => sort(sides, table, count, rows),
        None => Err(Refusal::TooManySituations),
    }
}

// Generates the machine of a shim, by its way and its two default tables, with the packed tables of the upstream model's fences and of the target
// model's, and writes its rows.
// The table of answers, 320 KiB, is on the stack of this call, and some 88 KiB of scratch on those of the calls in it.
pub fn generate<'a>(shim: Shim, ups: &'a [u64], fences: &'a [u64], rows: &mut [u16]) -> Outcome
    ensures { Generated shim ups.now fences.now rows.old result rows.new }
{
    let mut table = [0u32; 81920];
    let sides = Sides {
        shim,
        ups: named(ups),
        fences: named(fences),
    };
    search(sides, &mut table, rows)
}
