// The program: reads a sheet on standard input, saves its chart in the file bend.chart, and prints its line, or the line of its refusal.
// What is saved and printed is `draw_input`'s, in the crate draw. The line is printed only when the chart is in its place.
// What the system refuses is said on standard error; then no line is printed, and no chart is left that is not whole.
#![tactic(auto)]

mod save;

use draw::program::{CHART_ROOM, INPUT_ROOM, LINE_ROOM, draw_input};
use std::random::RandomSource;
use std::rt::Files;

// Saves and prints what is done with an input of which these are the first bytes.
fn answer<R: Files + Print + Eprint + RandomSource>(rt: &R, input: &[u8; INPUT_ROOM], size: usize) {
    let mut chart = [0u8; CHART_ROOM];
    let mut text = [0u8; LINE_ROOM];
    let shown = draw_input(input, size, &mut chart, &mut text);
    if shown.chart.is_none_or(|k| save::save(rt, &chart[..k])) {
        console::print(rt, &text[..shown.line]);
    }
}

// unbend does the same with another room and another answer: a function that takes both would be no plainer than these four lines.
fn main(rt: HostRuntime) {
    let mut input = [0u8; INPUT_ROOM];
    if let Some(size) = console::read_input(&rt, &mut rt.stdin(), &mut input) {
        answer(&rt, &input, size);
    }
}
