// The rows of the states, each read off the first situation of its class.
ghost use Rattle.std.specs.Prelude.{◌+◌, ◌*◌, ◌<◌, ◌≤◌, ◌≡◌, length};
ghost use Rattle.ground.specs.Bytes.{at};
ghost use Rattle.operations.specs.Alphabet.{stride};
ghost use Rattle.mealy.specs.inner.Classes.{Numbering};
ghost use Rattle.machine.specs.inner.Index.{capacity};
ghost use Rattle.machine.specs.inner.Words.{words, Slot};
ghost use Rattle.machine.specs.inner.Writing.{state_word, state_entry, RowWritten, RowsWritten, FirstWritten, Narrow};

use operations::alphabet::STRIDE;

// The word of a state where the table has this word.
fn state_word(word: usize, classes: &[u8]) -> u16
    requires { (word < 1052672) × (length classes.now ≡ capacity) }
    ensures { result ≡ state_word classes.now word }
{
    if word < 4096 {
        return 65024;
    }
    let target = word % 4096;
    let class = usize::from(classes[target]);
    ((word / 4096 - 1) * 256 + class) as u16
}

fn state_entry<'a>(table: &'a [u32], classes: &'a [u8], letters: usize, i: usize, a: usize) -> u16
    requires slot { Slot table.now i a × (length classes.now ≡ capacity) }
    requires narrow { Narrow table.now }
    ensures { result ≡ state_entry table.now classes.now letters i a }
{
    if letters <= a {
        return 0;
    }
    let word = table[i * STRIDE + a] as usize;
    state_word(word, classes)
}

// Writes row q, that of situation i.
fn write_row<'a>(
    table: &'a [u32],
    classes: &'a [u8],
    rows: &mut [u16],
    letters: usize,
    i: usize,
    q: usize,
)
    requires i_lt_capacity { (i < capacity) × (length table.now ≡ words) × (length classes.now ≡ capacity) × (q * stride + stride ≤ length rows.old) }
    requires narrow { Narrow table.now }
    ensures { RowWritten rows.old q (state_entry table.now classes.now letters i) stride rows.new }
{
    for a in 0..STRIDE {
        rows[q * STRIDE + a] = state_entry(table, classes, letters, i, a);
    }
}

// Writes row q where situation i is of class q, and gives the next class to come.
fn write_first<'a>(
    table: &'a [u32],
    classes: &'a [u8],
    rows: &mut [u16],
    letters: usize,
    i: usize,
    q: usize,
) -> usize
    requires i_lt_capacity { (i < capacity) × (length table.now ≡ words) × (length classes.now ≡ capacity) }
    requires stride_in_bounds { at classes.now i ≡ q → q * stride + stride ≤ length rows.old }
    requires narrow { Narrow table.now }
    ensures { FirstWritten (at classes.now i) q rows.old
        (state_entry table.now classes.now letters i) rows.new result }
{
    let class = usize::from(classes[i]);
    if class != q {
        return q;
    }
    write_row(table, classes, rows, letters, i, q);
    q + 1
}

// Writes the rows of n states, the classes of k situations.
pub(crate) fn write_rows<'a>(
    table: &'a [u32],
    classes: &'a [u8],
    rows: &mut [u16],
    letters: usize,
    k: usize,
    n: usize,
)
    requires k_le_capacity { (k ≤ capacity) × (length table.now ≡ words) × (length classes.now ≡ capacity) × (n * stride ≤ length rows.old) }
    requires narrow { Narrow table.now }
    requires numbering { Numbering k (at classes.now) n }
    ensures { (x : Numbering k (at classes.now) n)
        → RowsWritten rows.old n
        (λ q. state_entry table.now classes.now letters (x.firsts q)) rows.new }
{
    let mut q = 0;
    for i in 0..k {
        q = write_first(table, classes, rows, letters, i, q);
    }
}
