// The reader: from a text to a model.
ghost use Rattle.std.specs.Prelude.{◌+◌, ◌≤◌, ◌≡◌, length, take, drop};
ghost use Rattle.texts.specs.NamePart.{name_run};
ghost use Rattle.models.specs.Told.{Told};
ghost use Rattle.models.specs.inner.Progress.{among, repeat_place, finished};
ghost use Rattle.models.specs.Reading.{name_in, table_in, ended, lines_from, reading};

use crate::model::{Model, Name, Reading};
use crate::{held, scan};
use answers::Refusal;
use tables::strength::Strength;
use tables::table::Table;

// A model in the making, and the place of the first fence name that stood above already.
#[derive(Drop)]
struct Progress {
    model: Model,
    repeat: Option<usize>,
}

// What is left of the text from a place on.
fn rest(text: &[u8], at: usize) -> &[u8]
    ensures { result.now ≡ drop at text.now }
{
    &text[at.min(text.len())..]
}

fn table_in(text: &[u8]) -> Table
    ensures { result ≡ table_in text.now }
{
    let mut levels = [0u8; 16];
    for (i, level) in levels.iter_mut().enumerate() {
        *level = Strength::of_letter(ground::byte_at(text, i + i / 4)).level;
    }
    Table::of_levels(levels)
}

// The name between two places of the text: a line was read there, so its bytes are not looked at again.
fn name_in(text: &[u8], from: usize, past: usize) -> Name
    requires { (from + name_run 16 (drop from text.now) ≡ past) × (past ≤ length text.now) }
    ensures { result ≡ name_in (drop from text.now) }
{
    held::first_bytes(&text[from..past])
}

fn is_among(name: &Name, names: &[Name]) -> bool
    ensures { result ≡ among name.now names.now }
{
    names.iter().any(|above| above.bytes == name.bytes)
}

fn finish(p: Progress) -> Reading
    ensures { result ≡ finished p }
{
    match p.repeat {
        None => Ok(p.model),
        Some(at) => Err(Refusal::FenceNameRepeats(at)),
    }
}

// The place of the first name that stood above already: one was found, or it is the place of this name, or there is none.
fn repeat_place(found: Option<usize>, name: &Name, above: &[Name], at: usize) -> Option<usize>
    ensures { result ≡ repeat_place found name.now above.now at }
{
    match found {
        Some(_) => found,
        None => is_among(name, above).then_some(at),
    }
}

#[tactic(auto, unfolding(crate::specs::Reading::ended))]
fn end(text: &[u8], p: Progress, at: usize) -> Reading
    ensures { result ≡ ended text.now p at }
{
    let past = texts::follow(text, at, b"end\n").map_err(Refusal::NotOfTheForm)?;
    if past == text.len() {
        return finish(p);
    }
    Err(Refusal::NotOfTheForm(past))
}

// The fences' lines and the last line. The model is filled in place: as a value that goes through functions it would be copied for each fence.
fn lines(text: &[u8], start: Progress, at: usize) -> Reading
    requires { start.model.fences ≡ 0 }
    ensures { result ≡ lines_from 16 text.now start at }
{
    let mut model = start.model;
    let mut repeat = start.repeat;
    let mut here = at;
    for k in 0..16 {
        if ground::byte_at(text, here) != b'f' {
            return end(text, Progress { model, repeat }, here);
        }
        let line = scan::fence_line(text, here).map_err(Refusal::NotOfTheForm)?;
        // A blank stands between the two.
        let name = name_in(text, line.name, line.table - 1);
        let table = table_in(rest(text, line.table));
        repeat = repeat_place(repeat, &name, &model.names[..k], line.name);
        model.tables[k] = table.packed;
        model.names[k] = name;
        model.fences = k + 1;
        here = line.next;
    }
    end(text, Progress { model, repeat }, here)
}

// What a text says, or why it is refused.
#[tactic(auto, using(crate::proofs::Steps::reading_over, crate::proofs::Words::meets))]
pub fn read(text: &[u8]) -> Reading
    ensures equation { result ≡ reading text.now }
    ensures words { Told text.now result }
{
    if 1024 < text.len() {
        return Err(Refusal::OverLimit);
    }
    let line = scan::head_line(text).map_err(Refusal::NotOfTheForm)?;
    // A line feed and `ppo ` stand between the two.
    let name = name_in(text, line.name, line.table - 5);
    let ppo = table_in(rest(text, line.table));
    let model = held::bare_model(name, ppo);
    let start = Progress {
        model,
        repeat: None,
    };
    lines(text, start, line.next)
}
