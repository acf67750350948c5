// Whether the strokes keep their rule: their corners, their order, and their bars.
ghost use Rattle.std.specs.Prelude.{◌≡◌, true, false, ◌≤◌, length, take};
ghost use Rattle.lists.specs.Lists.{All};
ghost use Rattle.keys.specs.Keys.{edges_of};
ghost use Rattle.chart.specs.Decode.{chart_in, bar_of, stroke_of};
ghost use Rattle.nearest.specs.Held.{Bars};
ghost use Rattle.nearest.specs.Order.{OrderedBars};
ghost use Rattle.chart_reader.specs.Rules.{Named, Joins, BarsFit, StrokeRule, edges_in};
ghost use Rattle.chart_reader.specs.Strokes.{chart_of};
ghost use Rattle.chart_reader.specs.Held.{StrokeIn, EndsOf, HasColumn};

use crate::Ends;
use crate::frame::Strokes;
use chart::{Bar, Stroke, corner_bar, stroke_at};
use keys::key;
use keys::sort::ascends;
use nearest::question::nearest_corner;
use nearest::{Cell, Span};

// Reads the edges of the strokes, as keys, if each is of two corners, the lower first.
fn edge_keys(strokes: &Strokes, keys: &mut [u32]) -> bool
    requires { length strokes.now.at.now ≤ length keys.old }
    ensures yes { result ≡ true → All (Named (chart_of strokes.now)) (chart_of strokes.now).strokes
        × (edges_of (take (length strokes.now.at.now) keys.new) ≡ edges_in (chart_of strokes.now)) }
    ensures no { result ≡ false → All (Named (chart_of strokes.now)) (chart_of strokes.now).strokes → ⊥ }
{
    for (i, &place) in strokes.at.iter().enumerate() {
        let s = stroke_at(strokes.chart, place);
        if s.a >= s.b || s.b as usize >= strokes.n {
            return false;
        }
        keys[i] = key(s.a as usize, s.b as usize);
    }
    true
}

// Whether a bar has a cell in column j.
fn has_column(b: Bar, j: u16) -> bool
    ensures yes { result ≡ true → HasColumn (bar_of b) j }
    ensures no { result ≡ false → HasColumn (bar_of b) j → ⊥ }
{
    b.left <= j && j <= b.right
}

// Whether a level stroke joins bars of one row, and an upright bars of different rows, both with a cell in its column.
fn joins(strokes: &Strokes, s: Stroke) -> bool
    requires { StrokeIn strokes.now.n s }
    ensures yes { result ≡ true → Joins (chart_of strokes.now) (stroke_of s) }
    ensures no { result ≡ false → Joins (chart_of strokes.now) (stroke_of s) → ⊥ }
{
    let a = corner_bar(strokes.chart, s.a as usize);
    let b = corner_bar(strokes.chart, s.b as usize);
    match s.column {
        None => a.row == b.row,
        Some(j) => a.row != b.row && has_column(a, j) && has_column(b, j),
    }
}

// The two cells that a stroke runs between.
// It takes the bytes and n in place of the strokes: it may ask for no more than room for the bars (`Bars`).
pub fn stroke_ends(chart: &[u8], s: Stroke, n: usize) -> Ends
    requires { StrokeIn n s × Bars chart.now n }
    ensures { EndsOf (chart_in chart.now) s result }
{
    let a = corner_bar(chart, s.a as usize);
    let b = corner_bar(chart, s.b as usize);
    let (i, j) = match s.column {
        None => (a.right.min(b.right), a.left.max(b.left)),
        Some(j) => (j, j),
    };
    let first = Cell {
        row: a.row as usize,
        column: i as usize,
    };
    let last = Cell {
        row: b.row as usize,
        column: j as usize,
    };
    Ends { first, last }
}

// Whether the bars of a stroke fit: they are joined, with no bar between.
fn fits(strokes: &Strokes, s: Stroke, spans: &[Span]) -> bool
    requires stroke { StrokeIn strokes.now.n s }
    requires bars { OrderedBars (chart_of strokes.now).bar strokes.now.n spans.now }
    ensures yes { result ≡ true → BarsFit (chart_of strokes.now) (stroke_of s) }
    ensures no { result ≡ false → BarsFit (chart_of strokes.now) (stroke_of s) → ⊥ }
{
    if !joins(strokes, s) {
        return false;
    }
    let e = stroke_ends(strokes.chart, s, strokes.n);
    nearest_corner(spans, e.first, e.last).is_none()
}

// Whether the bars of each stroke do.
fn all_fit(strokes: &Strokes, spans: &[Span]) -> bool
    requires strokes { All (Named (chart_of strokes.now)) (chart_of strokes.now).strokes }
    requires bars { OrderedBars (chart_of strokes.now).bar strokes.now.n spans.now }
    ensures yes { result ≡ true → All (BarsFit (chart_of strokes.now)) (chart_of strokes.now).strokes }
    ensures no { result ≡ false → All (BarsFit (chart_of strokes.now)) (chart_of strokes.now).strokes → ⊥ }
{
    strokes.at.iter().all(|&place| fits(strokes, stroke_at(strokes.chart, place), spans))
}

// Whether the strokes keep their rule, with the keys of their edges in the table if they do.
pub fn strokes_keep(strokes: &Strokes, spans: &[Span], keys: &mut [u32]) -> bool
    requires room { length strokes.now.at.now ≤ length keys.old }
    requires bars { OrderedBars (chart_of strokes.now).bar strokes.now.n spans.now }
    ensures yes { result ≡ true → StrokeRule (chart_of strokes.now)
        × (edges_of (take (length strokes.now.at.now) keys.new) ≡ edges_in (chart_of strokes.now)) }
    ensures no { result ≡ false → StrokeRule (chart_of strokes.now) → ⊥ }
{
    if !edge_keys(strokes, keys) {
        return false;
    }
    let m = strokes.at.len();
    if !ascends(&keys[..m]) {
        return false;
    }
    all_fit(strokes, spans)
}
