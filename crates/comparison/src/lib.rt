// The comparison of two models by their default tables.
#![tactic(auto)]

ghost use Rattle.std.specs.Prelude.{◌≡◌};
ghost use Rattle.comparison.specs.Comparison.{number_of, comparison, Compares, comparing};

use answers::Refusal;
use tables::table::Table;

// How one model stands to another.
#[derive(Clone, Copy)]
pub enum Comparison {
    Equal,
    FirstStronger,
    SecondStronger,
    Neither,
}

impl Comparison {
    pub fn number(self) -> u64
        ensures { result ≡ number_of self }
    {
        match self {
            Self::Equal => 0,
            Self::FirstStronger => 1,
            Self::SecondStronger => 2,
            Self::Neither => 3,
        }
    }
}

// What a comparison answers.
pub type Compared = Result<Comparison, Refusal>;

// Compares two tables.
#[tactic(auto, using(crate::proofs::Words::compares_if), unfolding(crate::specs::Comparison::comparison))]
pub fn compare_tables(first: Table, second: Table) -> Comparison
    ensures equation { result ≡ comparison first second }
    ensures words { Compares first second result }
{
    match (first.at_least(second), second.at_least(first)) {
        (true, true) => Comparison::Equal,
        (true, false) => Comparison::FirstStronger,
        (false, true) => Comparison::SecondStronger,
        (false, false) => Comparison::Neither,
    }
}

// Compares the models of two texts.
#[tactic(auto, unfolding(crate::specs::Comparison::comparing))]
pub fn compare(first: &[u8], second: &[u8]) -> Compared
    ensures { result ≡ comparing first.now second.now }
{
    let a = models::reader::read(first)?;
    let b = models::reader::read(second)?;
    Ok(compare_tables(a.ppo, b.ppo))
}
