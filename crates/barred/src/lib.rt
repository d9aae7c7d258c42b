// Which bytes of an image hold a value that the layout bars.
#![tactic(auto)]

ghost use Rattle.std.specs.Prelude.{◌-◌, ◌<◌, ◌≡◌, not, leb, ltb, eqb};
ghost use Rattle.ground.specs.Bytes.{at};
ghost use Rattle.barred.specs.Barred.{wrong_count, ended, upstream_fences_of, next_below, barred_name, barred_fence, barred};

use places::Place;

// Whether a zero stands among the first k bytes of the name.
fn has_ended(image: &[u8], from: usize, k: usize) -> bool
    requires { (from < 64) × (k < 64) }
    ensures { result ≡ ended image.now from k }
{
    (0..k).any(|j| ground::byte_at(image, from + j) == 0)
}

#[tactic(auto, unfolding(crate::specs::Barred::barred_name))]
fn is_barred_name(image: &[u8], from: usize, k: usize) -> bool
    requires { (from < 64) × (k < 64) }
    ensures { result ≡ barred_name image.now from k }
{
    let byte = ground::byte_at(image, from + k);
    if byte == 0 {
        k == 0
    } else {
        !ground::is_name_byte(byte) || has_ended(image, from, k)
    }
}

// What a next state must stay below.
#[tactic(auto, unfolding(crate::specs::Barred::next_below))]
fn next_below(image: &[u8], state: usize, leads: bool) -> usize
    ensures { (result ≡ next_below image.now state leads) × (result < 256) }
{
    let states = ground::number_at(image, 4);
    if leads && state < states { states } else { 1 }
}

// Whether a block count does not belong to so many states, or there are none.
#[tactic(auto, unfolding(crate::specs::Barred::wrong_count))]
fn is_wrong_count(image: &[u8], states: usize) -> bool
    requires { states < 256 }
    ensures { result ≡ wrong_count image.now states }
{
    states == 0 || image.len() != 512 * places::blocks_for(states as u8)
}

#[tactic(auto, unfolding(crate::specs::Barred::barred_fence))]
fn is_barred_fence(image: &[u8], state: usize, value: usize) -> bool
    ensures { result ≡ barred_fence image.now state value }
{
    if state < ground::number_at(image, 4) {
        ground::number_at(image, 6) <= value && value < 254
    } else {
        1 <= value
    }
}

fn is_barred_next(image: &[u8], i: usize, value: usize, state: usize) -> bool
    requires { 0 < i }
    ensures { result ≡ leb (next_below image.now state (not (eqb (at image.now (i - 1)) 254))) value }
{
    let leads = ground::number_at(image, i - 1) != 254;
    next_below(image, state, leads) <= value
}

fn is_barred_fence_next(image: &[u8], value: usize, state: usize, f: usize) -> bool
    ensures { result ≡ leb (next_below image.now state (ltb f (upstream_fences_of image.now))) value }
{
    next_below(image, state, f < ground::number_at(image, 5)) <= value
}

// Whether the value of a byte is barred, by what stands there.
#[tactic(auto, unfolding(crate::specs::Barred::barred))]
pub fn is_barred(image: &[u8], i: usize) -> bool
    ensures { result ≡ barred image.now i }
{
    let value = ground::number_at(image, i);
    match places::stands_at(i) {
        Place::Number | Place::Check => false,
        Place::Nothing => 1 <= value,
        Place::Form => value != 1,
        Place::Way => 1 < value,
        Place::States => is_wrong_count(image, value),
        Place::UpstreamFences | Place::TargetFences => 16 < value,
        Place::UpstreamName(k) => is_barred_name(image, 7, k),
        Place::TargetName(k) => is_barred_name(image, 23, k),
        Place::Fence(state, _) => is_barred_fence(image, state, value),
        Place::Next(state, _) => is_barred_next(image, i, value, state),
        Place::FenceNext(state, f) => is_barred_fence_next(image, value, state, f),
    }
}
