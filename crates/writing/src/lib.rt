// From a model to its text. The text is made in a buffer of the writer's own, so a refused call writes nothing.
#![tactic(auto)]

mod parts;

ghost use Rattle.answers.specs.Given.{gives, Delivers};
ghost use Rattle.models.specs.Text.{text_of};
ghost use Rattle.writing.specs.Writing.{described};
ghost use Rattle.writing.specs.Calls.{reading_given, back_given};

use answers::Answer;
use models::model::{Model, Reading};
use printing::Page;

// The model's text in the buffer, or nothing where it does not fit.
pub fn write(model: Model, out: &mut [u8]) -> Answer
    ensures { Delivers (gives (text_of (described model)) 0 0) out.old result out.new }
{
    let mut buf = [0u8; 1024];
    let mut page = Page::new(&mut buf);
    parts::put_model(&mut page, model);
    answers::write_out(page.text(), 0, 0, out)
}

// Writes the text of a model that was read or made, or tells why there is none.
pub fn write_reading(r: Reading, out: &mut [u8]) -> Answer
    ensures { Delivers (reading_given r) out.old result out.new }
{
    write(r?, out)
}

// Reads a text and writes it back.
pub fn rewrite(text: &[u8], out: &mut [u8]) -> Answer
    ensures { Delivers (back_given text.now) out.old result out.new }
{
    write_reading(models::reader::read(text), out)
}
