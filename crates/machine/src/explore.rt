// Exploring breadth first from the fresh situation, letters in order: each unseen situation is put at the next place, and each candidate's word
// into the table.
ghost use Rattle.std.specs.Prelude.{◌+◌, ◌*◌, ◌<◌, ◌≡◌, length};
ghost use Rattle.machine.specs.inner.Index.{capacity, Linked};
ghost use Rattle.machine.specs.inner.Words.{Slot};
ghost use Rattle.machine.specs.inner.Explore.{situation_at, Explored, StoredIf, Notable, Noted, OnwardIf, SurveyedIf, Fresh};
ghost use Rattle.machine.specs.inner.Sides.{ruled};
ghost use Rattle.machine.specs.inner.Stages.{Few, Unused, Candidate};

use crate::index::Index;
use crate::step;
use crate::step::Sides;
use operations::alphabet::{ACCESSES, STRIDE};
use rule::situation::Situation;
use tables::table::Table;

fn situation_at(index: &Index, p: usize) -> Situation
    requires { p < capacity }
    ensures { result ≡ situation_at index.now.pairs p }
{
    let (need, low) = index.pair(p);
    Situation {
        need: Table { packed: need },
        low: Table { packed: low },
    }
}

// Stores the next situation, and the word of (i, a) that leads there; none where there is no room for it.
fn store(
    index: &mut Index,
    table: &mut [u32],
    i: usize,
    a: usize,
    o: usize,
    next: Situation,
) -> Option<()>
    requires { Linked index.old × Slot table.old i a × (o < 256) }
    ensures { StoredIf index.old table.old i a o next index.new table.new result }
{
    let q = index.place(next.need.packed, next.low.packed)?;
    table[i * STRIDE + a] = ((o + 1) * 4096 + q) as u32;
    Some(())
}

// Notes the answer to candidate (i, a); none where the situations are more than 4096.
fn note(
    index: &mut Index,
    table: &mut [u32],
    i: usize,
    a: usize,
    answered: Option<(usize, Situation)>,
) -> Option<()>
    requires { Linked index.old × Slot table.old i a × Notable answered }
    ensures { Noted index.old table.old i a answered index.new table.new result }
{
    match answered {
        Some((o, next)) => store(index, table, i, a, o, next),
        None => {
            table[i * STRIDE + a] = 0;
            Some(())
        }
    }
}

// Answers candidate (i, a); none where the situations are more than 4096.
fn explore_letter<'a>(
    sides: Sides<'a>,
    index: &mut Index,
    table: &mut [u32],
    i: usize,
    a: usize,
) -> Option<()>
    requires { Candidate sides index.old table.old i a }
    ensures { OnwardIf (ruled sides.entry) index.old.count index.new table.new i (a + 1) result }
{
    let s = situation_at(index, i);
    let answered = step::answer(sides, s, a);
    note(index, table, i, a, answered)
}

// Answers every letter at situation i; none where the situations are more than 4096.
fn explore_row<'a>(sides: Sides<'a>, index: &mut Index, table: &mut [u32], i: usize) -> Option<()>
    requires explored { Explored (ruled sides) index.old table.old i 0 }
    requires few { Few sides × (i < index.old.count) }
    ensures { OnwardIf (ruled sides.entry) index.old.count index.new table.new (i + 1) 0 result }
{
    for a in 0..ACCESSES + sides.ups.len() {
        explore_letter(sides, index, table, i, a)?;
    }
    Some(())
}

// Puts the fresh situation at place 0.
fn begin(index: &mut Index)
    requires { Linked index.old × (index.old.count ≡ 0) }
    ensures { Fresh index.new }
{
    let fresh = Situation::fresh();
    index.place(fresh.need.packed, fresh.low.packed);
}

// Answers every letter at every situation, and gives the count of situations; none where they are more than 4096.
fn explore_all<'a>(sides: Sides<'a>, index: &mut Index, table: &mut [u32]) -> Option<usize>
    requires explored { Explored (ruled sides) index.old table.old 0 0 }
    requires few { Few sides }
    ensures { SurveyedIf (ruled sides.entry) table.new result }
{
    let mut i = 0;
    // The count grows as the rows are answered.
    while i < index.count {
        explore_row(sides, index, table, i)?;
        i += 1;
    }
    Some(index.count)
}

// Explores from nothing, in an index of its own.
pub(crate) fn explore<'a>(sides: Sides<'a>, table: &mut [u32]) -> Option<usize>
    requires { Few sides × Unused table.old }
    ensures { SurveyedIf (ruled sides.entry) table.new result }
{
    let mut index = Index::new();
    begin(&mut index);
    explore_all(sides, &mut index, table)
}
