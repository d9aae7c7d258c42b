// The lines of a model's text. A line is followed from a place of the text; the answer is where its parts stand, or the place at which the
// text departs from it.
ghost use Rattle.std.specs.Prelude.{◌≡◌};
ghost use Rattle.texts.specs.Pattern.{follow_at};
ghost use Rattle.models.specs.inner.Lines.{table_pattern, line_end};
ghost use Rattle.models.specs.Reading.{head_at, fence_at};

use texts::Step;

// Where a line has its name and its table, and where the next line begins. The two lines above the fences count as one.
#[derive(Drop)]
pub(crate) struct Line {
    pub name: usize,
    pub table: usize,
    pub next: usize,
}

// The table's part of a line, with the line feed.
fn table_part(text: &[u8], at: usize) -> Step
    ensures { result ≡ follow_at table_pattern text.now at }
{
    texts::follow(text, at, b"???? ???? ???? ????\n")
}

// The two lines above the fences.
#[tactic(auto, unfolding(crate::specs::Reading::head_at))]
pub(crate) fn head_line(text: &[u8]) -> Result<Line, usize>
    ensures { result ≡ head_at text.now }
{
    let name = texts::follow(text, 0, b"model ")?;
    let past = texts::name(text, name, b'\n')?;
    let table = texts::follow(text, past, b"ppo ")?;
    line_end(text, name, table)
}

fn line_end(text: &[u8], name: usize, table: usize) -> Result<Line, usize>
    ensures { result ≡ line_end text.now name table }
{
    let next = table_part(text, table)?;
    Ok(Line { name, table, next })
}

#[tactic(auto, unfolding(crate::specs::Reading::fence_at))]
pub(crate) fn fence_line(text: &[u8], at: usize) -> Result<Line, usize>
    ensures { result ≡ fence_at text.now at }
{
    let name = texts::follow(text, at, b"fence ")?;
    let table = texts::name(text, name, b' ')?;
    line_end(text, name, table)
}
