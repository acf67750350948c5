// The program that tests/bars.sh runs: Draw with the bar list, which is no export for C, on the calls that stand on standard input.
// A call is 0 for the tape or 1 for a label, the length of the output, that of the list of records and that of the sheet, in two bytes each, and the sheet. An
// answer is the number, the length and the count of bars, in two bytes each; then the output with four more bytes, and the records with four more, six bytes each.
// The calls end where the input ends, or where one asks for more than there is.
#![tactic(auto)]

ghost use Rattle.std.specs.Prelude.{◌<◌, length, IfSome};

use chart::Bar;
use codec::{Refusal, get16};
use draw::{draw_label_with_bars, draw_with_bars};
use std::io;
use std::io::ErrorKind;

// Room for the calls, for a chart and for its bars, with the bytes and records behind those lent.
const INPUT_ROOM: usize = 65536;

const CHART_ROOM: usize = 20500;

const BAR_ROOM: usize = 1030;

// A call: what to draw on, the lengths to lend, and the sheet.
#[derive(Clone, Copy)]
struct Call<'a> {
    on_label: bool,
    lent: usize,
    room: usize,
    sheet: &'a [u8],
}

// The first call of an input, and what stands behind it; none where the input ends, or where the call asks for more than there is.
fn first_call(input: &[u8]) -> Option<(Call, &[u8])>
    ensures { IfSome result (λ p. length p.1.now < length input.now) }
{
    let (head, behind) = input.split_at_checked(8)?;
    let (sheet, rest) = behind.split_at_checked(get16(head, 6))?;
    let call = Call {
        on_label: get16(head, 0) == 1,
        lent: get16(head, 2),
        room: get16(head, 4),
        sheet,
    };
    Some((call, rest))
}

// Prints three numbers, in two bytes each.
fn print_numbers(rt: &impl Print, numbers: [u16; 3]) -> io::Result<()> {
    let bytes = numbers.map(u16::to_be_bytes);
    rt.write_all(bytes.as_flattened())
}

// Draws on a label or on the tape.
// Both are called by name: rt ci refuses a function that hands out pointers to functions.
fn drawn(
    on_label: bool,
    sheet: &[u8],
    out: &mut [u8],
    bars: &mut [Bar],
) -> Result<(usize, usize), Refusal> {
    if on_label {
        draw_label_with_bars(sheet, out, bars)
    } else {
        draw_with_bars(sheet, out, bars)
    }
}

// A number in two bytes; an error if it needs more.
fn narrow(number: usize) -> io::Result<u16> {
    u16::try_from(number).map_err(|_| ErrorKind::InvalidData.into())
}

// Prints the number, the length and the count of an answer.
fn print_answer(rt: &impl Print, answer: Result<(usize, usize), Refusal>) -> io::Result<()> {
    match answer {
        Ok((length, count)) => print_numbers(rt, [0, narrow(length)?, narrow(count)?]),
        Err(refusal) => print_numbers(rt, [refusal.number(), 0, 0]),
    }
}

// Runs a call and prints its answer.
fn run(rt: &impl Print, call: Call) -> io::Result<()> {
    let mut out = [238u8; CHART_ROOM];
    let mut bars = [Bar {
        row: 61166,
        left: 61166,
        right: 61166,
    }; BAR_ROOM];
    if call.lent > CHART_ROOM - 4 || call.room > BAR_ROOM - 4 {
        return Ok(());
    }
    let answer = drawn(
        call.on_label,
        call.sheet,
        &mut out[..call.lent],
        &mut bars[..call.room],
    );
    print_answer(rt, answer)?;
    rt.write_all(&out[..call.lent + 4])?;
    for bar in &bars[..call.room + 4] {
        print_numbers(rt, [bar.row, bar.left, bar.right])?;
    }
    Ok(())
}

fn main(rt: HostRuntime) -> io::Result<()> {
    let mut input = [0u8; INPUT_ROOM];
    let Some(size) = console::read_input(&rt, &mut rt.stdin(), &mut input) else {
        return Ok(());
    };
    let mut left = &input[..size];
    while let Some((call, rest)) = first_call(left) {
        run(&rt, call)?;
        left = rest;
    }
    Ok(())
}
