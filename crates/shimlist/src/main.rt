// Prints the listing of an input from standard input, or the line of its refusal.
#![tactic(auto)]

// One byte more than an input may have is enough to tell that it has too many.
fn main() {
    let mut input = [0u8; 32769];
    let n = io::read_full(0, &mut input);
    let _ = show::show(&input[..n]);
}
