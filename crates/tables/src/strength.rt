// The four strengths of an order between two accesses: constants of their type, with the comparisons beside them, as document 01 asks. Whoever
// reads or writes a cell's letter goes through them. Tables are compared whole, in the module `table`.
ghost use Rattle.std.specs.Prelude.{◌≡◌, max, min, leb};
ghost use Rattle.tables.specs.Strength.{level_of, letter};

// A byte and no enum: the functions promise answers of every level, and `letter` gives S of those above 3.
#[derive(Clone, Copy)]
pub struct Strength {
    pub level: u8,
}

impl Strength {
    pub const UNORDERED: Strength = Strength { level: 0 };

    pub const NON_ATOMIC: Strength = Strength { level: 1 };

    pub const MULTIPLE: Strength = Strength { level: 2 };

    pub const SINGLE: Strength = Strength { level: 3 };

    pub fn higher(self, other: Strength) -> Strength
        ensures { result.level ≡ max self.level other.level }
    {
        Strength {
            level: self.level.max(other.level),
        }
    }

    pub fn lower(self, other: Strength) -> Strength
        ensures { result.level ≡ min self.level other.level }
    {
        Strength {
            level: self.level.min(other.level),
        }
    }

    pub fn at_least(self, other: Strength) -> bool
        ensures { result ≡ leb other.level self.level }
    {
        other.level <= self.level
    }

    // The strength that a cell's letter stands for; any other byte counts as `-`.
    pub fn of_letter(b: u8) -> Strength
        ensures { result.level ≡ level_of b }
    {
        match b {
            b'N' => Strength::NON_ATOMIC,
            b'M' => Strength::MULTIPLE,
            b'S' => Strength::SINGLE,
            _ => Strength::UNORDERED,
        }
    }

    pub fn letter(self) -> u8
        ensures { result ≡ letter self.level }
    {
        if self.at_least(Strength::SINGLE) {
            b'S'
        } else if self.at_least(Strength::MULTIPLE) {
            b'M'
        } else if self.at_least(Strength::NON_ATOMIC) {
            b'N'
        } else {
            b'-'
        }
    }
}
