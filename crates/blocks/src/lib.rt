// The blocks of an image: the number and the check of each.
#![tactic(auto)]

ghost use Rattle.std.specs.Prelude.{ℕ, ◌+◌, ◌-◌, ◌*◌, ◌<◌, ◌≤◌, ◌≡◌, length};
ghost use Rattle.ground.specs.Bytes.{at};
ghost use Rattle.ground.specs.Lowest.{lowest};
ghost use Rattle.blocks.specs.Checksum.{two_bytes, plus, checksum};
ghost use Rattle.blocks.specs.Wrong.{check_in, wrong};

// Bytes `from` and `from` + 1 as one number.
fn two_bytes(bytes: &[u8], from: usize) -> usize
    requires { from + 1 < length bytes.now }
    ensures { (result ≡ two_bytes (at bytes.now from) (at bytes.now (from + 1))) × (result < 65536) }
{
    256 * ground::wide(bytes[from]) + ground::wide(bytes[from + 1])
}

// Their one's complement sum.
fn plus(a: usize, b: usize) -> usize
    requires { (a < 65536) × (b < 65536) }
    ensures { (result ≡ plus a b) × (result < 65536) }
{
    if a + b < 65536 { a + b } else { a + b - 65535 }
}

// The Internet checksum (RFC 1071) of the 510 bytes that begin at `from`.
#[tactic(auto, using(crate::proofs::Sums::sum_more), unfolding(crate::specs::Checksum::sum_of))]
fn check(bytes: &[u8], from: usize) -> usize
    requires { from + 510 ≤ length bytes.now }
    ensures { (result ≡ checksum 255 (λ (p : ℕ). at bytes.now (from + p))) × (result < 65536) }
{
    let mut sum = 0;
    for k in 0..255 {
        sum = plus(sum, two_bytes(bytes, from + 2 * k));
    }
    65535 - sum
}

// The check that a block must have; 0 where the block is not all there.
pub fn block_check(image: &[u8], b: usize) -> usize
    ensures { (result ≡ check_in image.now b) × (result < 65536) }
{
    if b < image.len() / 512 {
        check(image, 512 * b)
    } else {
        0
    }
}

// Whether a block is broken off, or has a wrong number or check.
#[tactic(auto, using(crate::proofs::Blocks::wrong_short, crate::proofs::Blocks::wrong_number, crate::proofs::Blocks::wrong_check))]
fn is_wrong(image: &[u8], b: usize) -> bool
    ensures { result ≡ wrong image.now b }
{
    if image.len() / 512 <= b {
        return true;
    }
    let from = 512 * b;
    two_bytes(image, from) != b || two_bytes(image, from + 510) != check(image, from)
}

// The lowest wrong one of so many blocks.
pub fn lowest_wrong(image: &[u8], count: usize) -> Option<usize>
    ensures { result ≡ lowest (wrong image.now) 0 count }
{
    (0..count).find(|b| is_wrong(image, *b))
}
