// Writing a machine's image.
ghost use Rattle.std.specs.Prelude.{◌+◌, ◌*◌, ◌/◌, ◌%◌, ◌^◌, ◌<◌, ◌≡◌, length};
ghost use Rattle.answers.specs.Given.{gives, Delivers};
ghost use Rattle.places.specs.Layout.{limit};
ghost use Rattle.image.specs.Image.{word, half, used, size_of, value_at, byte_at, image_of};
ghost use Rattle.image.specs.inner.Filling.{Front, sealed};

use crate::machine::Header;
use answers::Answer;
use layout::verdict::LIMIT;
use operations::alphabet::{ACCESSES, STRIDE};
use places::Place;

fn word_at(rows: &[u16], state: usize, letter: usize) -> u16
    requires { (state < 2 ^ 32) × (letter < 2 ^ 32) }
    ensures { result ≡ word rows.now state letter }
{
    rows.get(state * STRIDE + letter).copied().unwrap_or(0)
}

// A number's high byte at an even index, its low byte at an odd one.
#[tactic(auto, unfolding(crate::specs::Image::half))]
fn half(i: usize, number: usize) -> u8
    requires { number < 65536 }
    ensures { result ≡ half i number }
{
    if i % 2 == 0 {
        (number / 256) as u8
    } else {
        (number % 256) as u8
    }
}

// Unused states are zero. That is asked first, before the word is looked up: this is called for each byte of a state's entry.
#[tactic(auto, unfolding(crate::specs::Image::used))]
fn used(h: &Header, rows: &[u16], state: usize, letter: usize) -> u16
    requires { (state < 2 ^ 32) × (letter < 2 ^ 32) }
    ensures { result ≡ used h.now state (word rows.now state letter) }
{
    if state < usize::from(h.states) {
        word_at(rows, state, letter)
    } else {
        0
    }
}

// What is written at byte i, the checks aside.
#[tactic(auto, unfolding(crate::specs::Image::value_at))]
fn value_at(h: &Header, rows: &[u16], i: usize) -> u8
    requires { i < 2 ^ 24 }
    ensures { result ≡ value_at h.now rows.now i }
{
    match places::stands_at(i) {
        Place::Number => half(i, i / 512),
        Place::Form => 1,
        Place::Way => h.way,
        Place::States => h.states,
        Place::UpstreamFences => h.ups,
        Place::TargetFences => h.targets,
        Place::UpstreamName(k) => h.upstream[k],
        Place::TargetName(k) => h.target[k],
        Place::Fence(state, a) => (used(h, rows, state, a) / 256) as u8,
        Place::Next(state, a) => (used(h, rows, state, a) % 256) as u8,
        Place::FenceNext(state, f) => (used(h, rows, state, ACCESSES + f) % 256) as u8,
        Place::Nothing | Place::Check => 0,
    }
}

// Fills block b but for its check. The blocks below it are full.
#[tactic(auto, using(crate::proofs::Sealing::contents_next))]
fn fill_contents(h: &Header, rows: &[u16], image: &mut [u8], b: usize)
    requires b_bound { (b < 14) × (length image.old ≡ limit) }
    requires front { Front (byte_at h.now rows.now) (512 * b) image.old }
    ensures { Front (byte_at h.now rows.now) (512 * b + 510) image.new }
{
    for p in 0..510 {
        image[512 * b + p] = value_at(h, rows, 512 * b + p);
    }
}

// Writes the check of block b.
fn seal(image: &mut [u8], b: usize)
    requires { (b < 14) × (length image.old ≡ limit) }
    ensures { image.new ≡ sealed image.old b }
{
    let check = blocks::block_check(image, b);
    image[512 * b + 510] = (check / 256) as u8;
    image[512 * b + 511] = (check % 256) as u8;
}

fn fill_block(h: &Header, rows: &[u16], image: &mut [u8], b: usize)
    requires b_bound { (b < 14) × (length image.old ≡ limit) }
    requires front { Front (byte_at h.now rows.now) (512 * b) image.old }
    ensures { Front (byte_at h.now rows.now) (512 * b + 512) image.new }
{
    fill_contents(h, rows, image, b);
    seal(image, b);
}

// Fills as many blocks as the states want.
fn fill(h: &Header, rows: &[u16], image: &mut [u8])
    requires { length image.old ≡ limit }
    ensures { Front (byte_at h.now rows.now) (size_of h.now) image.new }
{
    let count = places::blocks_for(h.states);
    for b in 0..count {
        fill_block(h, rows, image, b);
    }
}

// The image of a machine, or nothing where it does not fit.
pub fn write(h: Header, rows: &[u16], out: &mut [u8]) -> Answer
    ensures { Delivers (gives (image_of h rows.now) 0 0) out.old result out.new }
{
    let mut image = [0u8; LIMIT];
    fill(&h, rows, &mut image);
    let n = 512 * places::blocks_for(h.states);
    answers::write_out(&image[..n], 0, 0, out)
}
