// The drawing of a machine's image, in the DOT graph language.
#![tactic(auto)]

mod print;

ghost use Rattle.std.specs.Prelude.{◌*◌, ◌≤◌, length};
ghost use Rattle.answers.specs.Given.{gives, Delivers};
ghost use Rattle.operations.specs.Alphabet.{stride};
ghost use Rattle.image.specs.Image.{Canonical};
ghost use Rattle.drawing.specs.Drawing.{drawing_of};
ghost use Rattle.drawing.specs.Calls.{drawn};

use answers::Answer;
use image::machine::Header;
use image::reader;
use operations::alphabet::{STRIDE, WORDS};
use printing::Page;

// Room for any drawing.
const ROOM: usize = 135_719;

// Writes the drawing of a machine. It owns the buffer that the drawing is put into, so that a refusal writes nothing.
fn write_drawing(h: Header, rows: &[u16], out: &mut [u8]) -> Answer
    requires { Canonical h rows.now × (h.states * stride ≤ length rows.now) }
    ensures { Delivers (gives (drawing_of h rows.now) 0 0) out.old result out.new }
{
    let mut text = [0u8; ROOM];
    let mut page = Page::new(&mut text);
    print::put_drawing(&mut page, h, rows);
    answers::write_out(page.text(), 0, 0, out)
}

// The drawing of an image, or nothing where the image is refused or its drawing does not fit.
pub fn draw(image: &[u8], out: &mut [u8]) -> Answer
    ensures { Delivers (drawn image.now) out.old result out.new }
{
    let mut rows = [0u16; WORDS];
    let header = reader::read(image, &mut rows)?;
    let n = ground::wide(header.states) * STRIDE;
    write_drawing(header, &rows[..n], out)
}
