// The shape of an input: two model texts, the way's line, the run's line.
ghost use Rattle.std.specs.Prelude.{◌≡◌};
ghost use Rattle.listing.specs.Shape.{way_in, is_run};
ghost use Rattle.listing.specs.inner.Finding.{LineEnd, TextEnd, OnlyRun, EndingAt};

use rule::way::Way;

// What stands after the two texts: a way and a stream, which ends before the last byte.
#[derive(Drop)]
pub(crate) struct Tail {
    pub way: Way,
    pub stream: usize,
}

// The end of the first line, past its line feed.
fn line_end(text: &[u8]) -> Option<usize>
    ensures { LineEnd text.now result }
{
    let n = ground::find(text, 0, b'\n');
    if n < text.len() { Some(n + 1) } else { None }
}

// The end of the text that begins here, which is that of its first line `end`.
pub(crate) fn text_end(text: &[u8]) -> Option<usize>
    ensures { TextEnd text.now result }
{
    let mut at = 0;
    while let Some(n) = line_end(&text[at..]) {
        let line = &text[at..at + n];
        at += n;
        if ground::same(line, b"end\n") {
            return Some(at);
        }
    }
    None
}

fn way_in(line: &[u8]) -> Option<Way>
    ensures { result ≡ way_in line.now }
{
    if ground::same(line, b"way full\n") {
        Some(Way::Full)
    } else if ground::same(line, b"way sparing\n") {
        Some(Way::Sparing)
    } else {
        None
    }
}

fn is_run(line: &[u8]) -> bool
    ensures { result ≡ is_run line.now }
{
    5 <= line.len() && line.starts_with(b"run ") && line.ends_with(b"\n")
}

// Whether the run's line is all that is left.
fn only_run(rest: &[u8]) -> bool
    ensures { OnlyRun rest.now result }
{
    match line_end(rest) {
        None => false,
        Some(n) => { n == rest.len() && is_run(rest) }
    }
}

// What stands after the two texts.
pub(crate) fn tail_of(text: &[u8]) -> Option<Tail>
    ensures { EndingAt text.now result }
{
    let n = line_end(text)?;
    let way = way_in(&text[..n])?;
    if only_run(&text[n..]) {
        Some(Tail { way, stream: n + 4 })
    } else {
        None
    }
}
