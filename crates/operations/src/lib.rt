// The operations of a stream, each one byte, and the order in which a machine takes them (`alphabet`).
#![tactic(auto)]

pub mod alphabet;

ghost use Rattle.std.specs.Prelude.{◌≡◌};
ghost use Rattle.operations.specs.Operation.{byte_is, access_byte, fence_byte, byte_of};

// The kinds of access.
#[derive(Clone, Copy)]
pub enum Kind {
    Ld,
    Cld,
    St,
    Cst,
}

// An access, or a fence by its number.
#[derive(Clone, Copy)]
pub enum Operation {
    Access(Kind),
    Fence(usize),
}

// What operation a byte is; none where a stream may not hold the byte.
pub fn read_byte(byte: u8) -> Option<Operation>
    ensures { result ≡ byte_is byte }
{
    match byte {
        b'l' => Some(Operation::Access(Kind::Ld)),
        b'L' => Some(Operation::Access(Kind::Cld)),
        b's' => Some(Operation::Access(Kind::St)),
        b'S' => Some(Operation::Access(Kind::Cst)),
        b'0'..=b'9' => Some(Operation::Fence((byte - b'0') as usize)),
        b'A'..=b'F' => Some(Operation::Fence((byte - b'A') as usize + 10)),
        _ => None,
    }
}

// The byte of an operation. A fence number above 15 has none, and gets 0, which is no operation.
pub fn byte_of(operation: Operation) -> u8
    ensures { result ≡ byte_of operation }
{
    match operation {
        Operation::Access(kind) => access_byte(kind),
        Operation::Fence(number) => fence_byte(number),
    }
}

fn access_byte(kind: Kind) -> u8
    ensures { result ≡ access_byte kind }
{
    match kind {
        Kind::Ld => b'l',
        Kind::Cld => b'L',
        Kind::St => b's',
        Kind::Cst => b'S',
    }
}

fn fence_byte(number: usize) -> u8
    ensures { result ≡ fence_byte number }
{
    match number {
        0..=9 => b'0' + number as u8,
        10..=15 => b'A' + (number - 10) as u8,
        _ => 0,
    }
}
