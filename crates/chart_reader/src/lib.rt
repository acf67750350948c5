// Read a chart: the bytes of a chart, ours or another's, to the normal sheet of the part that it shows.
// frame.rt finds the strokes in the bytes; the crate nearest tests the bars, puts them in order and asks for the bar nearest a cell;
// strokes.rt, gaps.rt and part.rt test the other rules; follow.rt asks the same question for others.
// The definitions that the contracts cite are in specs/: Reader.antt has the tests in their order, Rules.antt the rules,
// crate chart's Decode.antt the bytes, Follow.antt the nearest bar, Held.antt, Strokes.antt and Gaps.antt how the code holds a chart.
#![tactic(auto)]

ghost use Rattle.std.specs.Prelude.{◌≡◌, ◌≤◌, length};
ghost use Rattle.codec.specs.Answer.{answered, written};
ghost use Rattle.sheet.specs.Held.{reading_of};
ghost use Rattle.chart_reader.specs.Reader.{read_chart, chart_read};

use crate::frame::{Strokes, strokes_in};
use crate::gaps::gaps_keep;
use crate::part::part;
use crate::strokes::strokes_keep;
use codec::Refusal;
use keys::{CORNERS, DIAGONALS, EDGES};
use nearest::bars::bars_keep;
use nearest::{BLANK, Cell, Span};
use sheet::part::Part;
use sheet_writer::write_sheet;

pub mod follow;
pub mod frame;
pub mod gaps;
pub mod part;
pub mod strokes;

// The two cells that a stroke runs between.
#[derive(Drop)]
pub struct Ends {
    pub first: Cell,
    pub last: Cell,
}

// Reads a chart whose strokes were found, with tables for the bars in order and for the edges. The bends of the part go into the last table lent.
fn read_found<'t>(
    strokes: &Strokes,
    spans: &mut [Span],
    edges: &mut [u32],
    bends: &'t mut [u32],
) -> Result<Part<'t>, Refusal>
    requires bars { length spans.old ≡ strokes.now.n }
    requires edges { length edges.old ≡ length strokes.now.at.now }
    requires room { 1021 ≤ length bends.old }
    ensures { reading_of result ≡ read_chart strokes.now.chart.now }
{
    let n = strokes.n;
    if !bars_keep(strokes.chart, n, spans) {
        return Err(Refusal::Bars);
    }
    if !strokes_keep(strokes, spans, edges) {
        return Err(Refusal::Strokes);
    }
    if !gaps_keep(strokes, spans) {
        return Err(Refusal::Gaps);
    }
    let mut keys = [0u32; EDGES];
    if !part(edges, n, &mut keys) {
        return Err(Refusal::NoPart);
    }
    Ok(Part::flat(n, &keys[..n - 3], bends))
}

// Reads a chart: the part that it shows, which has no angles, its bends in the table lent, or a refusal.
pub fn read_part<'t>(chart: &[u8], bends: &'t mut [u32]) -> Result<Part<'t>, Refusal>
    requires { 1021 ≤ length bends.old }
    ensures { reading_of result ≡ read_chart chart.now }
{
    let mut at = [0usize; EDGES];
    let strokes = strokes_in(chart, &mut at).ok_or(Refusal::ChartForm)?;
    let mut spans = [BLANK; CORNERS];
    let mut edges = [0u32; EDGES];
    read_found(
        &strokes,
        &mut spans[..strokes.n],
        &mut edges[..strokes.at.len()],
        bends,
    )
}

// Read a chart: the normal sheet of the part that it shows.
pub fn read_chart(chart: &[u8], out: &mut [u8]) -> Result<usize, Refusal>
    ensures { answered result out.new ≡ written (chart_read chart.now) out.old }
{
    let mut bends = [0u32; DIAGONALS];
    let part = read_part(chart, &mut bends)?;
    write_sheet(&part, out)
}
