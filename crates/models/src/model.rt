// A model in memory, by value.
use answers::Refusal;
use tables::table::Table;

// A name of 1 to 16 bytes, filled up with zeros.
#[derive(Clone, Copy)]
pub struct Name {
    pub bytes: [u8; 16],
}

// Past its last fence a model holds nothing: table 0 and a name of zeros. The count stands beside the arrays, since the definitions `held` and
// `described` speak of these fields, of any count, and a model is copied and takes no heap.
#[derive(Clone, Copy)]
pub struct Model {
    pub ppo: Table,
    pub fences: usize,
    pub tables: [u64; 16],
    pub name: Name,
    pub names: [Name; 16],
}

// What reading a text gives.
pub type Reading = Result<Model, Refusal>;
