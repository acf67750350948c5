// The program: reads a chart on standard input and prints what it shows, in words, or the line of its refusal.
// What is printed is `describe_input`'s, in the crate chart_text.
// What the system refuses is said on standard error; then nothing is printed.
#![tactic(auto)]

use chart_text::TEXT_ROOM;
use chart_text::program::INPUT_ROOM;

// Prints what is said of an input of which these are the first bytes.
fn answer(rt: &(impl Print + Eprint), input: &[u8; INPUT_ROOM], size: usize) {
    let mut text = [0u8; TEXT_ROOM];
    let n = chart_text::program::describe_input(input, size, &mut text);
    console::print(rt, &text[..n]);
}

// bend does the same with another room and another answer: a function that takes both would be no plainer than these four lines.
fn main(rt: HostRuntime) {
    let mut input = [0u8; INPUT_ROOM];
    if let Some(size) = console::read_input(&rt, &mut rt.stdin(), &mut input) {
        answer(&rt, &input, size);
    }
}
