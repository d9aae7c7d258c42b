// The letters of a machine's alphabet: its operations by their places.
ghost use Rattle.std.specs.Prelude.{◌<◌, ◌≡◌};
ghost use Rattle.operations.specs.Alphabet.{access_letters, kind_of, letter_of, operation_of, fence_mark};
ghost use Rattle.operations.specs.Operation.{byte_of};

use crate::{Kind, Operation};

// How many letters are accesses; and how many there can be, which is how far one state's words in a machine's rows stand behind those of the
// state before it.
pub const ACCESSES: usize = 4;

pub const STRIDE: usize = 20;

// The words of 255 states, the most that a machine has.
pub const WORDS: usize = 255 * STRIDE;

// The kind of an access's letter. (A letter that is no access's counts as the last.)
pub fn kind_of(letter: usize) -> Kind
    ensures { result ≡ kind_of letter }
{
    match letter {
        0 => Kind::Ld,
        1 => Kind::Cld,
        2 => Kind::St,
        _ => Kind::Cst,
    }
}

pub fn letter_of(kind: Kind) -> usize
    ensures { (result ≡ letter_of kind) × (result < access_letters) }
{
    match kind {
        Kind::Ld => 0,
        Kind::Cld => 1,
        Kind::St => 2,
        Kind::Cst => 3,
    }
}

pub fn operation_of(letter: usize) -> Operation
    ensures { result ≡ operation_of letter }
{
    if letter < ACCESSES {
        Operation::Access(kind_of(letter))
    } else {
        Operation::Fence(letter - ACCESSES)
    }
}

// The byte of a letter's operation.
pub fn letter_byte(letter: usize) -> u8
    ensures { result ≡ byte_of (operation_of letter) }
{
    crate::byte_of(operation_of(letter))
}

// The mark of a fence byte, which is the upper half of a word of a machine's rows.
pub fn fence_mark(fence: u16) -> u8
    ensures { result ≡ fence_mark fence }
{
    match fence {
        254 => b'!',
        255 => b'-',
        _ => crate::byte_of(Operation::Fence(usize::from(fence))),
    }
}
