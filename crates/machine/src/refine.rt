// Classes of situations: all one at first, then split by what one letter after another shows, and numbered in the order in which they
// first occur. The table has a word for each situation and letter.
ghost use Rattle.std.specs.Prelude.{◌+◌, ◌*◌, ◌^◌, ◌<◌, ◌≤◌, ◌≡◌, length};
ghost use Rattle.operations.specs.Alphabet.{stride};
ghost use Rattle.machine.specs.inner.Index.{capacity};
ghost use Rattle.machine.specs.inner.Refine.{Begun, NamedIf, RoundedIf, RefinedIf};
ghost use Rattle.machine.specs.inner.Words.{words, Slot, tabled, seen, key};

use crate::index::Index;
use operations::alphabet::STRIDE;

// What a word shows: nothing where it refuses, else its output and its target's class.
fn shown(word: usize, classes: &[u8]) -> usize
    requires { (word < 2 ^ 32) × (length classes.now ≡ capacity) }
    ensures { (result ≡ seen classes.now word) × (result < 2 ^ 29) }
{
    if word < 4096 {
        return 0;
    }
    let target = word % 4096;
    word / 4096 * 256 + usize::from(classes[target])
}

// A situation's class with what a letter shows of it, as one number.
fn key_of<'a>(table: &'a [u32], classes: &'a [u8], i: usize, a: usize) -> u64
    requires { Slot table.now i a × (length classes.now ≡ capacity) }
    ensures { result ≡ key table.now classes.now a i }
{
    let word = table[i * STRIDE + a] as usize;
    (usize::from(classes[i]) + 256 * shown(word, classes)) as u64
}

// Splits the classes of k situations by what letter a shows, into finer classes, and gives their count, unless they are more than 255.
fn split_by<'a>(
    table: &'a [u32],
    classes: &'a [u8],
    finer: &mut [u8],
    index: &mut Index,
    k: usize,
    a: usize,
) -> Option<usize>
    requires k_le_capacity { (k ≤ capacity) × (a < stride) × (length table.now ≡ words) }
    requires classes_len { (length classes.now ≡ capacity) × (length finer.old ≡ capacity) }
    ensures { NamedIf k (key table.now classes.now a) finer.new result }
{
    index.clear();
    for i in 0..k {
        let q = index.place(key_of(table, classes, i, a), 0)?;
        if q == 255 {
            return None;
        }
        finer[i] = q as u8;
    }
    Some(index.count)
}

// One round: splits the classes by one letter after another, and gives their count, unless they are more than 255.
fn split_all<'a>(
    table: &'a [u32],
    classes: &mut [u8],
    finer: &mut [u8],
    index: &mut Index,
    k: usize,
    letters: usize,
    began: usize,
) -> Option<usize>
    requires table_len { (length table.now ≡ words) × (length finer.old ≡ capacity) }
    requires begun { Begun (tabled letters table.now) k classes.old began }
    ensures { RoundedIf (tabled letters table.now) k began classes.new result }
{
    let mut count = began;
    for a in 0..letters {
        count = split_by(table, classes, finer, index, k, a)?;
        classes.copy_from_slice(finer);
    }
    Some(count)
}

// Splits the classes round after round, until a round leaves their count as it was: then each class is one state. Gives the count,
// unless the states are more than 255.
pub(crate) fn refine<'a>(
    table: &'a [u32],
    classes: &mut [u8],
    k: usize,
    letters: usize,
) -> Option<usize>
    requires table_len { length table.now ≡ words }
    requires begun { Begun (tabled letters table.now) k classes.old 1 }
    ensures { RefinedIf (tabled letters table.now) k classes.new result }
{
    let mut finer = [0u8; 4096];
    let mut index = Index::new();
    let mut count = 1;
    loop {
        let more = split_all(table, classes, &mut finer, &mut index, k, letters, count)?;
        if more == count {
            return Some(more);
        }
        count = more;
    }
}
