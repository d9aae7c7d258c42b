// What stands at each byte of an image.
#![tactic(auto)]

ghost use Rattle.std.specs.Prelude.{◌^◌, ◌<◌, ◌≤◌, ◌≡◌};
ghost use Rattle.places.specs.Layout.{limit, blocks_for, header_place, content_place, stands_at, entry_start};

// A name's byte is counted from the name's first; an access or an upstream fence is its number.
#[derive(Clone, Copy)]
pub enum Place {
    Number,
    Form,
    Way,
    States,
    UpstreamFences,
    TargetFences,
    UpstreamName(usize),
    TargetName(usize),
    Fence(usize, usize),
    Next(usize, usize),
    FenceNext(usize, usize),
    Nothing,
    Check,
}

const ENTRY: usize = 24;

const STATES_TO_A_BLOCK: usize = 21;

fn header_place(p: usize) -> Place
    ensures { result ≡ header_place p }
{
    match p {
        0..=2 => Place::Form,
        3 => Place::Way,
        4 => Place::States,
        5 => Place::UpstreamFences,
        6 => Place::TargetFences,
        7..=22 => Place::UpstreamName(p - 7),
        23..=38 => Place::TargetName(p - 23),
        _ => Place::Nothing,
    }
}

// The bytes of an entry stand in the same match: as a function of its own its three places came out as one by arithmetic, and whoever asked what
// stands here had to take that apart again, byte by byte.
fn content_place(b: usize, p: usize) -> Place
    requires { (b < 2 ^ 55) × (2 ≤ p) × (p < 506) }
    ensures { result ≡ content_place 1 b p }
{
    if b == 0 {
        header_place(p)
    } else {
        let state = (b - 1) * STATES_TO_A_BLOCK + (p - 2) / ENTRY;
        match (p - 2) % ENTRY {
            o @ 8.. => Place::FenceNext(state, o - 8),
            o if o % 2 == 0 => Place::Fence(state, o / 2),
            o => Place::Next(state, o / 2),
        }
    }
}

#[tactic(auto, unfolding(crate::specs::Layout::stands_at))]
pub fn stands_at(i: usize) -> Place
    ensures { result ≡ stands_at 1 i }
{
    match i % 512 {
        0..=1 => Place::Number,
        p @ 2..=505 => content_place(i / 512, p),
        506..=509 => Place::Nothing,
        _ => Place::Check,
    }
}

// Where a state's entry begins. A state is a byte, so that it begins within the longest image.
pub fn entry_start(state: u8) -> usize
    ensures { (result ≡ entry_start 1 state) × (result < limit) }
{
    let s = state as usize;
    512 * (1 + s / STATES_TO_A_BLOCK) + 2 + ENTRY * (s % STATES_TO_A_BLOCK)
}

// How many blocks an image of so many states has.
pub fn blocks_for(states: u8) -> usize
    ensures { (result ≡ blocks_for 1 states) × (result ≤ 14) }
{
    1 + (states as usize + (STATES_TO_A_BLOCK - 1)) / STATES_TO_A_BLOCK
}
