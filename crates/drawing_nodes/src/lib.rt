// The lines of a drawing's nodes, read back: one for each state, from 0.
#![tactic(auto)]

ghost use Rattle.texts.specs.Telling.{Finds};
ghost use Rattle.drawing_nodes.specs.Nodes.{NodesEnd, NodesPart, nodes_taken};

pub mod decimal;

use decimal::follow_decimal;
use texts::Part;

// The `0` with which the first edge begins, behind the lines of so many nodes.
fn nodes_end(text: &[u8], at: usize, number: usize) -> Part
    ensures { Finds (NodesEnd number) text.now at (nodes_taken result) }
{
    if ground::byte_at(text, at) == b'0' {
        return Ok((at, number));
    }
    Err(at)
}

// The place of the first edge, and how many nodes there are.
pub fn nodes(text: &[u8], at: usize) -> Part
    ensures { Finds NodesPart text.now at (nodes_taken result) }
{
    let mut here = follow_decimal(text, at, 0, b";\n")?;
    for number in 1..255 {
        if ground::byte_at(text, here) == b'0' {
            return Ok((here, number));
        }
        here = follow_decimal(text, here, number, b";\n")?;
    }
    nodes_end(text, here, 255)
}
