// Following a text. A part of the text is followed from a place of it; the answer is the place after the part, or the place at which the
// text departs from it.
#![tactic(auto)]

ghost use Rattle.std.specs.Prelude.{◌≤◌, ◌<◌, ◌≡◌, drop};
ghost use Rattle.texts.specs.Pattern.{cell_byte, fits, follow_at};
ghost use Rattle.texts.specs.NamePart.{name_run, name_at};
ghost use Rattle.texts.specs.NumberPart.{is_digit, with_digit, digit_goes_on, part_shift, number_rest, number_at};

pub type Step = Result<usize, usize>;

// The same of a part that tells a number: the place after it with the number.
pub type Part = Result<(usize, usize), usize>;

fn is_cell(b: u8) -> bool
    ensures { result ≡ cell_byte b }
{
    matches!(b, b'-' | b'N' | b'M' | b'S')
}

// In a pattern `?` stands for any cell.
fn fits_pattern(pattern: u8, b: u8) -> bool
    ensures { result ≡ fits pattern b }
{
    if pattern == b'?' {
        is_cell(b)
    } else {
        b == pattern
    }
}

// A pattern at a place of the text.
pub fn follow(text: &[u8], at: usize, pattern: &[u8]) -> Step
    ensures { result ≡ follow_at pattern.now text.now at }
{
    let mut here = at;
    for p in pattern {
        if text.len() <= here || !fits_pattern(*p, text[here]) {
            return Err(here);
        }
        here += 1;
    }
    Ok(here)
}

// How many name bytes stand at a place, counted up to 16.
fn name_bytes(text: &[u8], at: usize) -> usize
    ensures { result ≡ name_run 16 (drop at text.now) }
{
    text[at.min(text.len())..]
        .iter()
        .take(16)
        .take_while(|b| ground::is_name_byte(**b))
        .count()
}

// A name and the byte after it, at a place of the text.
pub fn name(text: &[u8], at: usize, end: u8) -> Step
    ensures { result ≡ name_at end text.now at }
{
    let n = name_bytes(text, at);
    if n == 0 {
        return Err(at);
    }
    let past = at + n;
    if text.len() <= past || text[past] != end {
        return Err(past);
    }
    Ok(past + 1)
}

fn is_digit(b: u8) -> bool
    ensures { result ≡ is_digit b }
{
    b.is_ascii_digit()
}

// What a number becomes by one more digit.
fn with_digit(value: usize, b: u8) -> usize
    requires { (value < 256) × (48 ≤ b) }
    ensures { result ≡ with_digit value b }
{
    10 * value + usize::from(b - b'0')
}

// Whether a byte goes on with a number that has been read: a digit, no zero before it, and the number stays below the bound.
fn goes_on(value: usize, b: u8, bound: usize) -> bool
    requires { value < 256 }
    ensures { result ≡ digit_goes_on bound value b }
{
    is_digit(b) && value != 0 && with_digit(value, b) < bound
}

// What is left of a number of which `value` has been read, and the byte after it, at a place of the text.
fn number_rest(text: &[u8], at: usize, bound: usize, end: u8, start: usize) -> Part
    requires { (start < bound) × (bound < 256) }
    ensures { result ≡ part_shift at (number_rest bound end start (drop at text.now)) }
{
    let mut value = start;
    for here in at..text.len() {
        let b = text[here];
        if b == end {
            return Ok((here + 1, value));
        }
        if !goes_on(value, b, bound) {
            return Err(here);
        }
        value = with_digit(value, b);
    }
    Err(at.max(text.len()))
}

// A number below a bound, in decimal without zeros in front, and the byte after it, at a place of the text.
pub fn number(text: &[u8], at: usize, bound: u8, end: u8) -> Part
    ensures { result ≡ number_at bound end text.now at }
{
    if text.len() <= at || !is_digit(text[at]) {
        return Err(at);
    }
    let value = usize::from(text[at] - b'0');
    let limit = usize::from(bound);
    if limit <= value {
        return Err(at);
    }
    number_rest(text, at + 1, limit, end, value)
}
