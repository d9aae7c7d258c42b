// How a model is held: the makers of names, of models without fences and of refused readings.
ghost use Rattle.std.specs.Prelude.{◌≡◌, take};
ghost use Rattle.models.specs.Told.{filled, bare, refusing};

use crate::model::{Model, Name, Reading};
use answers::Refusal;
use tables::table::Table;

// The first bytes of a text as a name: at most sixteen.
pub fn first_bytes(text: &[u8]) -> Name
    ensures { result ≡ filled (take 16 text.now) }
{
    let mut bytes = [0u8; 16];
    let n = text.len().min(16);
    bytes[..n].copy_from_slice(&text[..n]);
    Name { bytes }
}

// A model without fences.
pub fn bare_model(name: Name, ppo: Table) -> Model
    ensures { result ≡ bare name ppo }
{
    let zeros = Name { bytes: [0; 16] };
    Model {
        ppo,
        fences: 0,
        tables: [0; 16],
        name,
        names: [zeros; 16],
    }
}

// The refused reading.
pub fn refuse(why: Refusal) -> Reading
    ensures { result ≡ refusing why }
{
    Err(why)
}
