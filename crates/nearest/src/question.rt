// The question behind the reader: which bar, of those that stand between two cells of a row or of a column, is nearest the first?
// It is asked of bars in order (order.rt), by halving.
ghost use Rattle.std.specs.Prelude.{◌≡◌, true, false, ℕ, ◌+◌, ◌*◌, ◌<◌, ◌≤◌, max, length};
ghost use Rattle.chart.specs.Chart.{Bar};
ghost use Rattle.nearest.specs.Cells.{cell};
ghost use Rattle.nearest.specs.Held.{SmallCell};
ghost use Rattle.nearest.specs.Nearest.{found_of, nearest};
ghost use Rattle.nearest.specs.Order.{lasts, nearest_span, Climbs, Within, Cut, InOrderSpans, WholeSpans, OrderedBars};

use crate::{Cell, Span};

// The address of a cell. (Keys to sort by are made so too, order.rt: a number, and a second one behind it.)
pub fn address(row: usize, column: usize) -> u32
    requires { (row < 65536) × (column < 65536) }
    ensures { result ≡ row * 65536 + column }
{
    row as u32 * 65536 + column as u32
}

// How many spans end before address x.
pub fn seek(spans: &[Span], x: u32) -> usize
    requires { Climbs (lasts spans.now) }
    ensures { Cut (lasts spans.now) x result }
{
    spans.partition_point(|s| s.last < x)
}

// The same, if x belongs between two places.
fn seek_within(spans: &[Span], from: usize, to: usize, x: u32) -> usize
    requires climbs { Climbs (lasts spans.now) }
    requires between { Within (lasts spans.now) x from to }
    ensures { Cut (lasts spans.now) x result }
{
    from + seek(&spans[from..to], x)
}

// The same from a place on, quick if the answer is near: each step is twice as far from the place as the one before.
fn seek_from(spans: &[Span], from: usize, x: u32) -> usize
    requires climbs { Climbs (lasts spans.now) }
    requires behind { Within (lasts spans.now) x from (length (lasts spans.now)) }
    ensures { Cut (lasts spans.now) x result }
{
    let mut low = from;
    let mut high = from;
    // no plainer as a chain: the places are not neighbours, each lies twice as far on
    while high < spans.len() {
        if spans[high].last >= x {
            return seek_within(spans, low, high, x);
        }
        low = high + 1;
        high = 2 * high - from + 1;
    }
    seek_within(spans, low, spans.len(), x)
}

// In a row, with the second cell to the right: the first bar that ends behind the first cell.
fn to_right(spans: &[Span], p: Cell, q: Cell) -> Option<usize>
    requires tables { InOrderSpans spans.now × WholeSpans spans.now }
    requires cells { SmallCell p × SmallCell q × (p.row ≡ q.row) × (p.column + 1 < q.column) }
    ensures { found_of result ≡ nearest_span spans.now (p, q) }
{
    let i = seek(spans, address(p.row, p.column) + 1);
    if i == spans.len() {
        return None;
    }
    if spans[i].first >= address(q.row, q.column) {
        return None;
    }
    Some(i)
}

// To the left: the last bar that starts before the first cell.
fn to_left(spans: &[Span], p: Cell, q: Cell) -> Option<usize>
    requires tables { InOrderSpans spans.now × WholeSpans spans.now }
    requires cells { SmallCell p × SmallCell q × (p.row ≡ q.row) × (q.column + 1 < p.column) }
    ensures { found_of result ≡ nearest_span spans.now (p, q) }
{
    let a = address(p.row, p.column);
    let i = spans.partition_point(|s| s.first < a);
    if i == 0 {
        return None;
    }
    if spans[i - 1].last <= address(q.row, q.column) {
        return None;
    }
    Some(i - 1)
}

// In a column, from the row below `top` to the row above `bottom`, past rows without bars: the first bar, or the last.
fn walk(spans: &[Span], column: usize, top: usize, bottom: usize, last: bool) -> Option<usize>
    requires tables { InOrderSpans spans.now }
    requires rows { (column < 65536) × (top ≤ bottom) × (bottom < 65536) }
    ensures first { last ≡ false → found_of result
        ≡ nearest_span spans.now (cell top column, cell bottom column) }
    ensures last { last ≡ true → found_of result
        ≡ nearest_span spans.now (cell bottom column, cell top column) }
{
    if bottom <= top + 1 {
        return None;
    }
    let mut found = None;
    let mut row = top + 1;
    let mut i = seek(spans, address(row, column));
    // no plainer as a chain or with a closure for `last`: rows are skipped by what was found, and two walks would differ in one line
    while row < bottom {
        let a = address(row, column);
        i = seek_from(spans, i, a);
        if i == spans.len() {
            return found;
        }
        if spans[i].first <= a {
            if !last {
                return Some(i);
            }
            found = Some(i);
        }
        row = (row + 1).max((spans[i].first / 65536) as usize);
    }
    found
}

// Of the bars in order, the place of the one nearest the first of two cells of a column.
pub fn in_column(spans: &[Span], p: Cell, q: Cell) -> Option<usize>
    requires tables { InOrderSpans spans.now }
    requires cells { SmallCell p × SmallCell q × (p.column ≡ q.column) }
    ensures { found_of result ≡ nearest_span spans.now (p, q) }
{
    if p.row < q.row {
        return walk(spans, p.column, p.row, q.row, false);
    }
    walk(spans, p.column, q.row, p.row, true)
}

// Of a row.
fn in_row(spans: &[Span], p: Cell, q: Cell) -> Option<usize>
    requires tables { InOrderSpans spans.now × WholeSpans spans.now }
    requires cells { SmallCell p × SmallCell q × (p.row ≡ q.row) }
    ensures { found_of result ≡ nearest_span spans.now (p, q) }
{
    if p.column + 1 < q.column {
        return to_right(spans, p, q);
    }
    if q.column + 1 < p.column {
        return to_left(spans, p, q);
    }
    None
}

// Of any two cells.
fn nearest(spans: &[Span], p: Cell, q: Cell) -> Option<usize>
    requires tables { InOrderSpans spans.now × WholeSpans spans.now }
    requires cells { SmallCell p × SmallCell q }
    ensures { found_of result ≡ nearest_span spans.now (p, q) }
{
    if p.row == q.row {
        return in_row(spans, p, q);
    }
    if p.column == q.column {
        return in_column(spans, p, q);
    }
    None
}

// The corner of the bar nearest the first of two cells: the question that the whole reader asks.
pub fn nearest_corner(spans: &[Span], p: Cell, q: Cell) -> Option<usize>
    requires tables { (bars : ℕ → Bar) × (n : ℕ) × OrderedBars bars n spans.now }
    requires cells { SmallCell p × SmallCell q }
    ensures { (bars : ℕ → Bar) (n : ℕ) → OrderedBars bars n spans.now
        → found_of result ≡ nearest bars n (p, q) }
{
    let i = nearest(spans, p, q)?;
    Some(spans[i].corner as usize)
}
