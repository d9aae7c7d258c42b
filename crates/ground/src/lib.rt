// What every crate may stand on: bytes and their ranges, what stands at a place, whether two texts are the same, the first of some places.
#![tactic(auto)]

ghost use Rattle.std.specs.Prelude.{◌<◌, ◌≤◌, ◌+◌, ◌≡◌, length, drop};
ghost use Rattle.ground.specs.Bytes.{at, name_byte, same_bytes};
ghost use Rattle.ground.specs.Search.{index_of};

// A byte among numbers.
pub fn wide(byte: u8) -> usize
    ensures { (result ≡ byte) × (result < 256) }
{
    usize::from(byte)
}

// The byte at a place, 0 past the end.
pub fn byte_at(bytes: &[u8], i: usize) -> u8
    ensures { result ≡ at bytes.now i }
{
    if i < bytes.len() { bytes[i] } else { 0 }
}

// The same among numbers.
pub fn number_at(bytes: &[u8], i: usize) -> usize
    ensures { (result ≡ at bytes.now i) × (result < 256) }
{
    wide(byte_at(bytes, i))
}

// Whether a name may hold the byte.
pub fn is_name_byte(b: u8) -> bool
    ensures { result ≡ name_byte b }
{
    matches!(b, b'0'..=b'9' | b'A'..=b'Z' | b'a'..=b'z' | b'_')
}

// Whether two texts are the same.
pub fn same<'a>(first: &'a [u8], second: &'a [u8]) -> bool
    ensures { result ≡ same_bytes first.now second.now }
{
    first == second
}

// The first place of a byte, from one on; the end where there is none, and that place itself where it is past the end. No Option: every caller
// cuts the slice there, and the promises `in_bounds` and `value` are of this number.
pub fn find(bytes: &[u8], from: usize, byte: u8) -> usize
    ensures in_bounds { (from ≤ result) × (from ≤ length bytes.now → result ≤ length bytes.now) }
    ensures value { result ≡ from + index_of byte (drop from bytes.now) }
{
    match bytes.iter().skip(from).position(|b| *b == byte) {
        Some(i) => from + i,
        None => from.max(bytes.len()),
    }
}
