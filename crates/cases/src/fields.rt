// Cases that stand on standard input, as fields with a bar behind each.
ghost use Rattle.std.specs.Iterator.{at_most};
ghost use Rattle.std.specs.Prelude.{◌≡◌, ◌≤◌, length, drop};
ghost use Rattle.cases.specs.Groups.{GivesGroup};
ghost use Rattle.cases.specs.Fields.{first_of, others_of, from, number_in, with_digit};

// Where the field behind this one begins.
#[tactic(auto, using(crate::proofs::Bars::next_one, crate::proofs::Bars::next_none))]
fn next(input: &[u8], at: usize) -> usize
    requires { at ≤ length input.now }
    ensures upper_bound { result ≤ length input.now }
    ensures input_value { drop result input.now ≡ others_of (drop at input.now) }
{
    let end = ground::find(input, at, b'|');
    if end < input.len() { end + 1 } else { end }
}

fn start(input: &[u8], k: usize) -> usize
    ensures upper_bound { result ≤ length input.now }
    ensures input_value { drop result input.now ≡ from k input.now }
{
    let mut at = 0;
    for _ in 0..k {
        if at == input.len() {
            return at;
        }
        at = next(input, at);
    }
    at
}

// All from a field on, the first being field 0; nothing where there are not so many.
pub fn rest(input: &[u8], k: usize) -> &[u8]
    ensures { result.now ≡ from k input.now }
{
    let at = start(input, k);
    &input[at..]
}

// A field, without its bar.
pub fn field(input: &[u8], k: usize) -> &[u8]
    ensures { result.now ≡ first_of (from k input.now) }
{
    let at = start(input, k);
    let end = ground::find(input, at, b'|');
    &input[at..end]
}

// Groups of so many fields, of one at least, one behind another. Each comes with all that stands behind it.
#[derive(Drop)]
pub struct Groups<'a> {
    left: &'a [u8],
    size: usize,
}

// The groups from a field on.
pub fn groups_from<'a>(input: &'a [u8], k: usize, size: usize) -> Groups<'a>
    ensures left { result.left.now ≡ from k input.now }
    ensures size { result.size ≡ size }
{
    Groups {
        left: rest(input, k),
        size,
    }
}

impl<'a> Iterator for Groups<'a> {
    type Item = &'a [u8];

    ghost next_gives = { GivesGroup };

    ghost remaining = { λ s. at_most (length s.left.now) };

    fn next(&mut self) -> Option<&'a [u8]> {
        if self.left.is_empty() {
            return None;
        }
        let group = self.left;
        self.left = rest(group, self.size.max(1));
        Some(group)
    }
}

// The number with a digit behind it, modulo 2^64, any byte being one of sixteen digits; a number with no room for a digit stays as it is.
fn with_digit(sum: u64, byte: u8) -> u64
    ensures { result ≡ with_digit sum byte }
{
    if sum <= 1844674407370955161 {
        (sum * 10).wrapping_add(u64::from(byte) % 16)
    } else {
        sum
    }
}

// A number in decimal.
pub fn number(text: &[u8]) -> u64
    ensures { result ≡ number_in 0 text.now }
{
    text.iter().fold(0, |sum, byte| with_digit(sum, *byte))
}
