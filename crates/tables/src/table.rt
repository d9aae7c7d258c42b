// Tables of sixteen cells, packed in one number of row bytes: the first row lowest, in a row the first column lowest. A fifth row has
// room above the fourth.
ghost use Rattle.std.specs.Prelude.{◌+◌, ◌*◌, ◌/◌, ◌^◌, ◌<◌, ◌≡◌};
ghost use Rattle.std.specs.Int.Bits.{bit_and, bit_or, bit_xor};
ghost use Rattle.tables.specs.Cells.{digit};
ghost use Rattle.tables.specs.Table.{place, cells, cell, higher, lower, exceeding, at_least, row_table};
ghost use Rattle.tables.specs.Table.{column_table, levels_table};
ghost use Rattle.tables.specs.inner.Planes.{ones, over_plane, picked_table};

use crate::strength::Strength;

// The earlier access of a pair, by its kind, in the order of a table's rows: a cast gives a row's number.
#[derive(Clone, Copy)]
pub enum Row {
    Cld,
    Cst,
    Ld,
    St,
}

// The later access of a pair, by its kind, in the order of a table's columns.
#[derive(Clone, Copy)]
pub enum Column {
    Ld,
    Cld,
    St,
    Cst,
}

#[derive(Clone, Copy)]
pub struct Table {
    pub packed: u64,
}

// A bit in each of the sixteen cells.
const ONES: u64 = 0x5555_5555;

impl Table {
    pub const NONE: Table = Table { packed: 0 };

    pub const FULL: Table = Table {
        packed: 0xffff_ffff,
    };

    pub fn cell(self, row: Row, column: Column) -> Strength
        ensures { result.level ≡ cell self row column }
    {
        let i = place_of(row, column);
        let level = digit_at(self.packed, i);
        Strength { level: level as u8 }
    }

    pub fn higher(self, other: Table) -> Table
        ensures { result ≡ higher self other }
    {
        pick_where(self, other, self, other)
    }

    pub fn lower(self, other: Table) -> Table
        ensures { result ≡ lower self other }
    {
        pick_where(self, other, other, self)
    }

    // This table where it exceeds the other, `-` elsewhere.
    pub fn exceeding(self, other: Table) -> Table
        ensures { result ≡ exceeding self other }
    {
        pick_where(self, other, self, Table::NONE)
    }

    pub fn at_least(self, other: Table) -> bool
        ensures { result ≡ at_least self other }
    {
        other.exceeding(self).packed == 0
    }

    // S in the row, `-` elsewhere.
    #[tactic(auto, unfolding(crate::specs::Table::row_table, crate::specs::Table::table))]
    pub fn row(row: Row) -> Table
        ensures { result ≡ row_table row }
    {
        match row {
            Row::Cld => Table {
                packed: 0x0000_00ff,
            },
            Row::Cst => Table {
                packed: 0x0000_ff00,
            },
            Row::Ld => Table {
                packed: 0x00ff_0000,
            },
            Row::St => Table {
                packed: 0xff00_0000,
            },
        }
    }

    // S in the column, `-` elsewhere.
    #[tactic(auto, unfolding(crate::specs::Table::column_table, crate::specs::Table::table))]
    pub fn column(column: Column) -> Table
        ensures { result ≡ column_table column }
    {
        match column {
            Column::Ld => Table {
                packed: 0x0303_0303,
            },
            Column::Cld => Table {
                packed: 0x0c0c_0c0c,
            },
            Column::St => Table {
                packed: 0x3030_3030,
            },
            Column::Cst => Table {
                packed: 0xc0c0_c0c0,
            },
        }
    }

    // The table of sixteen levels, row after row. Of a level above S only what fits a cell is taken.
    #[tactic(auto, using(crate::proofs::Packed::packed_below, crate::proofs::Laws::levels_places))]
    pub fn of_levels(levels: [u8; 16]) -> Table
        ensures { result ≡ levels_table levels }
    {
        let mut t = 0;
        for (i, level) in levels.iter().enumerate() {
            t = with_digit(t, i as u64, u64::from(*level % 4));
        }
        Table { packed: t }
    }
}

fn place_of(row: Row, column: Column) -> u64
    ensures { (result ≡ place row column) × (result < cells) }
{
    4 * (row as u64) + column as u64
}

fn digit_at(t: u64, i: u64) -> u64
    requires { i < cells }
    ensures { (result ≡ digit t i) × (result < 4) }
{
    (t >> (2 * i)) % 4
}

// One cell more above those that are packed.
fn with_digit(t: u64, i: u64, x: u64) -> u64
    requires { (i < cells) × (t < 2 ^ (2 * i)) × (x < 4) }
    ensures { result ≡ t + x * 2 ^ (2 * i) }
{
    t + (x << (2 * i))
}

// The higher bit of each cell, and the lower.
fn high_bits(t: u64) -> u64
    ensures { result ≡ bit_and (t / 2) ones }
{
    (t / 2) & ONES
}

fn low_bits(t: u64) -> u64
    ensures { result ≡ bit_and t ones }
{
    t & ONES
}

// A bit where the first cell exceeds the second: its higher bit is above the other's, or not below it and its lower bit is above.
fn exceeds(a: u64, b: u64) -> u64
    ensures { result ≡ over_plane a b }
{
    let high = high_bits(a);
    let no_high = high_bits(b) ^ ONES;
    let low = low_bits(a);
    let no_low = low_bits(b) ^ ONES;
    (high & no_high) | ((high | no_high) & low & no_low)
}

// The bits of x where there is one in `at`, of y elsewhere.
fn pick_bits(at: u64, x: u64, y: u64) -> u64
    ensures { result ≡ bit_or (bit_and x at) (bit_and y (bit_xor at ones)) }
{
    (x & at) | (y & (at ^ ONES))
}

// The cells of x where a exceeds b, of y elsewhere.
fn pick_where(a: Table, b: Table, x: Table, y: Table) -> Table
    ensures { result ≡ picked_table a b x y }
{
    let at = exceeds(a.packed, b.packed);
    let high = pick_bits(at, high_bits(x.packed), high_bits(y.packed));
    let low = pick_bits(at, low_bits(x.packed), low_bits(y.packed));
    Table {
        packed: 2 * high + low,
    }
}
