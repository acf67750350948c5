// Whether no upright passes through the gap of a level stroke. A gap lies between a bar and the next of its row;
// so the gaps are held in the order of the bars, and the same question is asked of them.
ghost use Rattle.std.specs.Prelude.{◌≡◌, true, false, List, ℕ, ◌+◌, ◌<◌, length, get_or};
ghost use Rattle.lists.specs.Lists.{All};
ghost use Rattle.chart.specs.Decode.{stroke_at, stroke_of};
ghost use Rattle.nearest.specs.declared.Cell.{Cell};
ghost use Rattle.nearest.specs.BarRule.{BarRule};
ghost use Rattle.nearest.specs.Order.{firsts, lasts, InOrderSpans};
ghost use Rattle.chart_reader.specs.Rules.{Named, StrokeRule, GapRule};
ghost use Rattle.chart_reader.specs.Strokes.{chart_of};
ghost use Rattle.chart_reader.specs.Held.{StrokeIn};
ghost use Rattle.chart_reader.specs.Gaps.{InGap, Gapped, Clear, GapPut, GapsIn, BarSpans};

use crate::Ends;
use crate::frame::Strokes;
use crate::strokes::stroke_ends;
use chart::{Stroke, stroke_at};
use keys::CORNERS;
use nearest::question::{address, in_column, seek};
use nearest::{BLANK, Span};

// Writes an empty gap behind each bar: it starts a cell behind the bar's last, and ends before its start.
fn put_empty(spans: &[Span], gaps: &mut [Span])
    requires size { length gaps.old ≡ length spans.now }
    requires room { (i : ℕ) → i < length spans.now → get_or (lasts spans.now) i 0 + 1 < 4294967296 }
    ensures { (i : ℕ) → i < length spans.now → (get_or (firsts gaps.new) i 0 ≡ get_or (lasts spans.now) i 0 + 1)
        × (get_or (lasts gaps.new) i 0 ≡ get_or (lasts spans.now) i 0) }
{
    for (i, span) in spans.iter().enumerate() {
        gaps[i] = Span {
            first: span.last + 1,
            last: span.last,
            corner: span.corner,
        };
    }
}

// Puts the gap of a stroke behind its left bar, if it is level and its gap has a cell, and says whether it has.
fn put_gap(strokes: &Strokes, s: Stroke, spans: &[Span], gaps: &mut [Span]) -> bool
    requires stroke { StrokeIn strokes.now.n s × Gapped (chart_of strokes.now) (stroke_of s) }
    requires bars { (length gaps.old ≡ strokes.now.n) × BarSpans (chart_of strokes.now) strokes.now.n spans.now }
    ensures none { result ≡ false → (gaps.new ≡ gaps.old) × ((d : Cell) → InGap (chart_of strokes.now) (stroke_of s) d → ⊥) }
    ensures some { result ≡ true → (firsts gaps.new ≡ firsts gaps.old)
        × GapPut (chart_of strokes.now) (stroke_of s) (lasts spans.now) (lasts gaps.old) (lasts gaps.new) }
{
    if s.column.is_some() {
        return false;
    }
    let Ends { first: p, last: q } = stroke_ends(strokes.chart, s, strokes.n);
    if q.column <= p.column + 1 {
        return false;
    }
    let i = seek(spans, address(p.row, p.column));
    gaps[i].last = address(q.row, q.column) - 1;
    true
}

// Puts the gaps of the level strokes, and says whether one has a cell.
fn put_gaps(strokes: &Strokes, spans: &[Span], gaps: &mut [Span]) -> bool
    requires strokes { BarRule (chart_of strokes.now) × StrokeRule (chart_of strokes.now) }
    requires bars { BarSpans (chart_of strokes.now) strokes.now.n spans.now }
    requires none { (length gaps.old ≡ strokes.now.n) × ((i : ℕ) → i < strokes.now.n → get_or (lasts gaps.old) i 0 ≡ get_or (lasts spans.now) i 0) }
    ensures gaps { GapsIn (chart_of strokes.now) (λ (k : ℕ). stroke_at strokes.now.chart.now (get_or strokes.now.at.now k 0))
        (length strokes.now.at.now) (firsts spans.now) (lasts spans.now) (lasts gaps.new) }
    ensures starts { firsts gaps.new ≡ firsts gaps.old }
    ensures any { result ≡ false → (k : ℕ) → k < length strokes.now.at.now → (d : Cell)
        → InGap (chart_of strokes.now) (stroke_at strokes.now.chart.now (get_or strokes.now.at.now k 0)) d → ⊥ }
{
    // no plainer by any(), which would leave out the gaps behind the first
    let mut any = false;
    for &place in strokes.at {
        if put_gap(strokes, stroke_at(strokes.chart, place), spans, gaps) {
            any = true;
        }
    }
    any
}

// Whether a stroke is no upright, or passes through none of the gaps.
fn clear(strokes: &Strokes, s: Stroke, gaps: &[Span]) -> bool
    requires { StrokeIn strokes.now.n s × InOrderSpans gaps.now }
    ensures yes { result ≡ true → Clear (chart_of strokes.now) (firsts gaps.now) (lasts gaps.now) (stroke_of s) }
    ensures no { result ≡ false → Clear (chart_of strokes.now) (firsts gaps.now) (lasts gaps.now) (stroke_of s) → ⊥ }
{
    if s.column.is_none() {
        return true;
    }
    let e = stroke_ends(strokes.chart, s, strokes.n);
    in_column(gaps, e.first, e.last).is_none()
}

// Whether each stroke is.
fn all_clear(strokes: &Strokes, gaps: &[Span]) -> bool
    requires { All (Named (chart_of strokes.now)) (chart_of strokes.now).strokes × InOrderSpans gaps.now }
    ensures yes { result ≡ true → All (Clear (chart_of strokes.now) (firsts gaps.now) (lasts gaps.now))
        (chart_of strokes.now).strokes }
    ensures no { result ≡ false → All (Clear (chart_of strokes.now) (firsts gaps.now) (lasts gaps.now))
        (chart_of strokes.now).strokes → ⊥ }
{
    strokes.at.iter().all(|&place| clear(strokes, stroke_at(strokes.chart, place), gaps))
}

// Whether no upright passes through the gap of a level stroke, for a chart that keeps the rules of bars and strokes; with a table for the gaps.
fn none_passes(strokes: &Strokes, spans: &[Span], gaps: &mut [Span]) -> bool
    requires chart { BarRule (chart_of strokes.now) × StrokeRule (chart_of strokes.now) }
    requires bars { BarSpans (chart_of strokes.now) strokes.now.n spans.now }
    requires size { length gaps.old ≡ strokes.now.n }
    ensures yes { result ≡ true → GapRule (chart_of strokes.now) }
    ensures no { result ≡ false → GapRule (chart_of strokes.now) → ⊥ }
{
    put_empty(spans, gaps);
    if !put_gaps(strokes, spans, gaps) {
        return true;
    }
    all_clear(strokes, gaps)
}

// The same with a table of its own.
pub fn gaps_keep(strokes: &Strokes, spans: &[Span]) -> bool
    requires chart { BarRule (chart_of strokes.now) × StrokeRule (chart_of strokes.now) }
    requires bars { BarSpans (chart_of strokes.now) strokes.now.n spans.now }
    ensures yes { result ≡ true → GapRule (chart_of strokes.now) }
    ensures no { result ≡ false → GapRule (chart_of strokes.now) → ⊥ }
{
    let mut gaps = [BLANK; CORNERS];
    none_passes(strokes, spans, &mut gaps[..strokes.n])
}
