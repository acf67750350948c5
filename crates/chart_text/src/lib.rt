// A chart in words: the line of the part that it shows, the bar of each corner, the strokes from left to right; or the refusal. specs/Text.antt says the bytes.
// The reading is that of the crate chart_reader, the part's line that of draw, the words and numbers are written by log_line. strokes.rt has the strokes.
#![tactic(auto)]

ghost use Rattle.std.specs.Prelude.{◌+◌, ◌*◌, ◌<◌, ◌≤◌, length};
ghost use Rattle.lists.specs.Lists.{All};
ghost use Rattle.sheet.specs.Sheet.{held};
ghost use Rattle.chart.specs.Decode.{chart_in, bar_of};
ghost use Rattle.log_line.specs.Put.{Put};
ghost use Rattle.log_line.specs.Line.{line};
ghost use Rattle.chart_reader.specs.Formed.{Formed};
ghost use Rattle.chart_reader.specs.Strokes.{chart_of};
ghost use Rattle.chart_reader.specs.Rules.{Named};
ghost use Rattle.chart_text.specs.Text.{chart_facts, corner_line, corner_lines, described_as, described};

use crate::strokes::put_strokes;
use chart::{Bar, corner_bar};
use chart_reader::frame::{Strokes, strokes_in};
use chart_reader::read_part;
use codec::get16;
use draw::line::counts_line;
use keys::{DIAGONALS, EDGES};
use log_line::{put_field, put_refused, put_word};
use plan::plan_part;
use sheet::part::Part;

pub mod program;
pub mod strokes;

// Room for the longest text.
pub const TEXT_ROOM: usize = 163840;

// Writes the line of a part in hand, in the chart's own rows and columns.
fn put_head(chart: &[u8], part: &Part, out: &mut [u8]) -> usize
    requires { (6 ≤ length chart.now) × (256 ≤ length out.old) }
    ensures { Put (line (chart_facts (chart_in chart.now) part.now))
        out.old 0 out.new result }
{
    let rows = get16(chart, 0);
    let columns = get16(chart, 2);
    counts_line(part.head(), plan_part(part), rows, columns, out)
}

// Writes the line of a corner with its bar, and says where it ends.
fn put_corner(out: &mut [u8], at: usize, corner: usize, bar: Bar) -> usize
    requires { (at + 128 ≤ length out.old) × (corner < 1024) }
    ensures text { Put (corner_line corner (bar_of bar)) out.old at out.new result }
    ensures within { result ≤ at + 45 }
{
    let a = put_field(out, at, b"corner ", corner);
    let b = put_field(out, a, b" row ", bar.row as usize);
    let c = put_field(out, b, b" columns ", bar.left as usize);
    let d = put_field(out, c, b" to ", bar.right as usize);
    put_word(out, d, b"\n")
}

// Writes the lines of the corners of a chart.
fn put_corners(out: &mut [u8], at: usize, strokes: &Strokes) -> usize
    requires { at + 45 * strokes.now.n + 128 ≤ length out.old }
    ensures text { Put (corner_lines (chart_of strokes.now)) out.old at out.new result }
    ensures within { result ≤ at + 45 * strokes.now.n }
{
    let mut end = at;
    for x in 0..strokes.n {
        end = put_corner(out, end, x, corner_bar(strokes.chart, x));
    }
    end
}

// Writes what is said of a chart that was read as a part in hand.
fn describe_part(chart: &[u8], part: &Part, out: &mut [u8]) -> usize
    requires formed { Formed chart.now × All (Named (chart_in chart.now)) (chart_in chart.now).strokes }
    requires room { 163840 ≤ length out.old }
    ensures text { Put (described_as (chart_in chart.now) (held part.now))
        out.old 0 out.new result }
    ensures within { result ≤ 163840 }
{
    let mut at = [0usize; EDGES];
    // a chart that was read has its form
    let strokes = strokes_in(chart, &mut at).unwrap();
    let head = put_head(chart, part, out);
    let corners = put_corners(out, head, &strokes);
    put_strokes(out, corners, &strokes)
}

// Writes what is said of a chart, and says how long it is.
pub fn describe(chart: &[u8], out: &mut [u8; TEXT_ROOM]) -> usize
    ensures text { Put (described chart.now) out.old 0 out.new result }
    ensures within { result ≤ 163840 }
{
    let mut bends = [0u32; DIAGONALS];
    match read_part(chart, &mut bends) {
        Err(refusal) => put_refused(refusal.number() as usize, out),
        Ok(part) => describe_part(chart, &part, out),
    }
}
