// The label of a drawing, read back: both names, the way and the two numbers of fences. The names are kept by their places until all of the
// label has been read.
#![tactic(auto)]

ghost use Rattle.std.specs.Prelude.{◌≤◌, ◌≡◌, length, take, take_while, IfOk};
ghost use Rattle.ground.specs.Bytes.{name_byte};
ghost use Rattle.texts.specs.Telling.{Finds, part_taken};
ghost use Rattle.drawing_label.specs.Label.{WayPart, LabelPart};
ghost use Rattle.drawing_label.specs.Label.{name_from, field, places_taken, label_taken, Fits};

use texts::Part;

// Where the names stand, what else the label tells, and the place behind it.
#[derive(Drop)]
struct Places {
    upstream: usize,
    target: usize,
    way: usize,
    ups: usize,
    targets: usize,
    next: usize,
}

// A label with its names filled up with zeros, and the place behind it.
#[derive(Clone, Copy)]
pub struct LabelRead {
    pub upstream: [u8; 16],
    pub target: [u8; 16],
    // as the header has it
    pub way: usize,
    pub ups: usize,
    pub targets: usize,
    pub next: usize,
}

// A way's word and the blank after it.
fn way_part(text: &[u8], at: usize) -> Part
    ensures { Finds WayPart text.now at (part_taken result) }
{
    if ground::byte_at(text, at) == b's' {
        let next = texts::follow(text, at, b"sparing ")?;
        return Ok((next, 0));
    }
    let next = texts::follow(text, at, b"full ")?;
    Ok((next, 1))
}

// The label's parts, followed in order.
fn label_places(text: &[u8]) -> Result<Places, usize>
    ensures { Finds LabelPart text.now 0 (places_taken text.now result) }
{
    let upstream = texts::follow(text, 0, b"digraph shim {\nlabel=\"")?;
    let target = texts::name(text, upstream, b' ')?;
    let way_at = texts::name(text, target, b' ')?;
    let (ups_at, way) = way_part(text, way_at)?;
    let (targets_at, ups) = texts::number(text, ups_at, 17, b' ')?;
    let (end, targets) = texts::number(text, targets_at, 17, b'"')?;
    let next = texts::follow(text, end, b";\n")?;
    Ok(Places {
        upstream,
        target,
        way,
        ups,
        targets,
        next,
    })
}

// How many name bytes stand in front, counted up to 16.
fn name_length(text: &[u8]) -> usize
    ensures within { (result ≤ 16) × (result ≤ length text.now) }
    ensures count { result ≡ length (take_while name_byte (take 16 text.now)) }
{
    text.iter()
        .take(16)
        .take_while(|byte| ground::is_name_byte(**byte))
        .count()
}

// The name at a place of the text, filled up with zeros.
fn name_field(text: &[u8], at: usize) -> [u8; 16]
    ensures { result ≡ field (name_from text.now at) }
{
    let mut bytes = [0u8; 16];
    if let Some(rest) = text.get(at..) {
        let n = name_length(rest);
        bytes[..n].copy_from_slice(&rest[..n]);
    }
    bytes
}

// The label at the front of a text.
pub fn label(text: &[u8]) -> Result<LabelRead, usize>
    ensures { Finds LabelPart text.now 0 (label_taken result) × IfOk result Fits }
{
    let l = label_places(text)?;
    Ok(LabelRead {
        upstream: name_field(text, l.upstream),
        target: name_field(text, l.target),
        way: l.way,
        ups: l.ups,
        targets: l.targets,
        next: l.next,
    })
}
