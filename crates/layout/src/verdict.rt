// What is wrong with an image, and where.
ghost use Rattle.std.specs.Prelude.{◌-◌, ◌<◌, ◌≤◌, ◌≡◌, length, None};
ghost use Rattle.ground.specs.Lowest.{lowest};
ghost use Rattle.places.specs.Layout.{limit};
ghost use Rattle.barred.specs.Barred.{barred};
ghost use Rattle.layout.specs.Verdict.{block_count, lowest_barred, stages, verdict_of};
ghost use Rattle.layout.specs.inner.Zeros.{ZerosKept};

use answers::{Refusal, Verdict};

// The limit of an image's length.
pub const LIMIT: usize = 7168;

// How many blocks there are by position; an empty image has a broken block 0.
fn block_count(image: &[u8]) -> usize
    requires { length image.now ≤ limit }
    ensures { result ≡ block_count image.now }
{
    image.len().div_ceil(512).max(1)
}

// How many bytes in front are looked at, zeros too: a zero behind the header is barred nowhere if there is a target fence.
fn header_end(image: &[u8]) -> usize
    ensures { (result ≤ length image.now) × ZerosKept image.now result }
{
    if ground::number_at(image, 6) == 0 {
        image.len()
    } else {
        image.len().min(39)
    }
}

// The lowest barred byte of so many in front.
fn barred_in_front(image: &[u8], count: usize) -> Option<usize>
    ensures { result ≡ lowest (barred image.now) 0 count }
{
    (0..count).find(|i| barred::is_barred(image, *i))
}

// The lowest barred byte from one on, behind which zeros are passed over: most bytes of an image are.
fn barred_behind(image: &[u8], from: usize) -> Option<usize>
    requires { (from ≤ length image.now) × ZerosKept image.now from }
    ensures { result ≡ lowest (barred image.now) from (length image.now - from) }
{
    (from..image.len()).find(|i| image[*i] != 0 && barred::is_barred(image, *i))
}

fn lowest_barred(image: &[u8]) -> Option<usize>
    ensures { result ≡ lowest_barred image.now }
{
    let end = header_end(image);
    if let Some(i) = barred_in_front(image, end) {
        return Some(i);
    }
    barred_behind(image, end)
}

// What is wrong with an image whose blocks are right.
fn examine_bytes(image: &[u8]) -> Verdict
    ensures { result ≡ stages None (lowest_barred image.now) }
{
    let byte = lowest_barred(image);
    match byte {
        Some(i) => Err(Refusal::BarredValue(i)),
        None => Ok(()),
    }
}

// What is wrong with an image, first of all.
pub fn examine(image: &[u8]) -> Verdict
    ensures { result ≡ verdict_of image.now }
{
    if LIMIT < image.len() {
        return Err(Refusal::OverLimit);
    }
    let block = blocks::lowest_wrong(image, block_count(image));
    match block {
        Some(b) => Err(Refusal::BrokenBlock(b)),
        None => examine_bytes(image),
    }
}
