// What the program bend does with its input: the chart to be saved and the line to be printed. specs/Program.antt says it of the whole input.
// No sheet is longer than LONGEST bytes, so the first bytes of a longer input, one more than that, get the refusal of the whole (`long_input` in the crate sheet).
ghost use Rattle.std.specs.Prelude.{◌≡◌, List, ℕ, ◌≤◌, length, take};
ghost use Rattle.codec.specs.Input.{Begins};
ghost use Rattle.keys.specs.Keys.{edges_of};
ghost use Rattle.sheet.specs.Sheet.{held};
ghost use Rattle.draw.specs.Program.{output_of, output, shown, Lengths};

use crate::line::counts_line;
use crate::write_part;
use keys::DIAGONALS;
use levels::Tables;
use log_line::put_refused;
use plan::counts_of;
use sheet::LONGEST;
use sheet::part::Part;
use sheet::reader::read_sheet;

// Room for an input, one byte more than the longest sheet has; for the longest chart; for the longest line.
pub const INPUT_ROOM: usize = LONGEST + 1;

pub const CHART_ROOM: usize = 20465;

pub const LINE_ROOM: usize = 256;

// The length of the chart to be saved, if one is, and that of the line to be printed.
#[derive(Clone, Copy, Debug, PartialEq, Eq)]
pub struct Shown {
    pub chart: Option<usize>,
    pub line: usize,
}

// What is done with a part, by the keys of its diagonals: its tables are filled once, for the chart and for the line.
fn show_part(part: &Part, keys: &[u32], chart: &mut [u8], text: &mut [u8]) -> Shown
    requires part { edges_of keys.now ≡ part.now.ds }
    requires room { (20465 ≤ length chart.old) × (256 ≤ length text.old) }
    ensures done { shown result chart.new text.new
        ≡ output_of (held part.now) chart.old text.old }
    ensures within { Lengths result chart.new text.new }
{
    let h = part.head();
    let mut tables = Tables::new();
    tables.fill(keys, h.n);
    let drawn = write_part(h.n, &tables, None, h.n, chart);
    let counts = counts_of(&tables);
    let line = counts_line(h, counts, drawn.size.rows, drawn.size.columns, text);
    Shown {
        chart: drawn.written.ok(),
        line,
    }
}

// What is done with a sheet.
fn draw_first(sheet: &[u8], chart: &mut [u8], text: &mut [u8]) -> Shown
    requires { (20465 ≤ length chart.old) × (256 ≤ length text.old) }
    ensures done { shown result chart.new text.new ≡ output sheet.now chart.old text.old }
    ensures within { Lengths result chart.new text.new }
{
    let mut bends = [0u32; DIAGONALS];
    let mut keys = [0u32; DIAGONALS];
    match read_sheet(sheet, &mut bends, &mut keys) {
        Ok(part) => {
            let n = part.head().n;
            show_part(&part, &keys[..n - 3], chart, text)
        }
        Err(why) => Shown {
            chart: None,
            line: put_refused(usize::from(why.number()), text),
        },
    }
}

// What is done with an input, of which the first `size` bytes lent are all, or its first INPUT_ROOM bytes if it is longer.
pub fn draw_input(
    lent: &[u8; INPUT_ROOM],
    size: usize,
    chart: &mut [u8; CHART_ROOM],
    text: &mut [u8; LINE_ROOM],
) -> Shown
    ensures done { (input : List ℕ) → Begins lent.now size input
        → shown result chart.new text.new ≡ output input chart.old text.old }
    ensures within { Lengths result chart.new text.new }
{
    draw_first(&lent[..size.min(INPUT_ROOM)], chart, text)
}
