// Shows an input: writes its listing to standard output, or the line of its refusal.
#![tactic(auto)]

ghost use Rattle.show.specs.Shown.{Shown};

use answers::{Answer, Refusal};

fn show_refusal(why: Refusal) {
    let mut line = [0u8; 53];
    if let Ok(done) = listed::refusal_line(why, &mut line) {
        io::write_all(1, &line[..done.written]);
    }
}

pub fn show(input: &[u8]) -> Answer
    ensures { Shown input.now result }
{
    let mut out = [0u8; 73728];
    let answer = listing::list(input, &mut out);
    match answer {
        Ok(done) => {
            io::write_all(1, &out[..done.written]);
        }
        Err(why) => show_refusal(why),
    }
    answer
}
