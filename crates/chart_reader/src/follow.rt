// To follow a line of a chart with a finger: which bar is nearest the first of two cells of a row or of a column?
ghost use Rattle.std.specs.Prelude.{◌≡◌, true, false, IsTrue, ◌↔◌, ◌<◌, length};
ghost use Rattle.chart_reader.specs.Strokes.{chart_of};
ghost use Rattle.chart_reader.specs.Follow.{Asked, nearest_bar, followed_of};

use crate::frame::{Strokes, strokes_in};
use codec::{Refusal, get16};
use keys::{CORNERS, EDGES};
use nearest::bars::bars_keep;
use nearest::question::nearest_corner;
use nearest::{BLANK, Cell, Span};

// Whether a cell lies within rows and columns.
fn on_chart(p: Cell, rows: usize, columns: usize) -> bool
    ensures { IsTrue result ↔ (p.row < rows) × (p.column < columns) }
{
    p.row < rows && p.column < columns
}

// Whether both cells are of the chart, and of one row or column.
fn asked(strokes: &Strokes, p: Cell, q: Cell) -> bool
    ensures yes { result ≡ true → Asked (chart_of strokes.now) (p, q) }
    ensures no { result ≡ false → Asked (chart_of strokes.now) (p, q) → ⊥ }
{
    let rows = get16(strokes.chart, 0);
    let columns = get16(strokes.chart, 2);
    on_chart(p, rows, columns)
        && on_chart(q, rows, columns)
        && (p.row == q.row || p.column == q.column)
}

// The bar nearest the first of two cells, in a chart of this form, with a table for its bars in order.
fn follow(strokes: &Strokes, spans: &mut [Span], p: Cell, q: Cell) -> Result<Option<usize>, Refusal>
    requires { length spans.old ≡ strokes.now.n }
    ensures { followed_of result ≡ nearest_bar strokes.now.chart.now (p, q) }
{
    if !bars_keep(strokes.chart, strokes.n, spans) {
        return Err(Refusal::Bars);
    }
    if !asked(strokes, p, q) {
        return Err(Refusal::OutOfRange);
    }
    Ok(nearest_corner(spans, p, q))
}

// The bar nearest the first of two cells of a chart.
pub fn nearest_bar(chart: &[u8], p: Cell, q: Cell) -> Result<Option<usize>, Refusal>
    ensures { followed_of result ≡ nearest_bar chart.now (p, q) }
{
    let mut at = [0usize; EDGES];
    let strokes = strokes_in(chart, &mut at).ok_or(Refusal::ChartForm)?;
    let mut spans = [BLANK; CORNERS];
    follow(&strokes, &mut spans[..strokes.n], p, q)
}
