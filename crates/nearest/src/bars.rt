// Whether the bars keep their rule.
ghost use Rattle.std.specs.Prelude.{◌≡◌, true, false, ◌≤◌, length};
ghost use Rattle.lists.specs.Lists.{All, below};
ghost use Rattle.chart.specs.Decode.{chart_in, bar_of};
ghost use Rattle.nearest.specs.BarRule.{LiesIn, Lies, BarRule};
ghost use Rattle.nearest.specs.Held.{Bars};
ghost use Rattle.nearest.specs.Order.{OrderedBars};

use crate::Span;
use crate::order::put_in_order;
use chart::{Bar, corner_bar};
use codec::get16;

// Whether a bar has its left column at most its right, and lies within rows and columns.
fn lies(b: Bar, rows: usize, columns: usize) -> bool
    ensures yes { result ≡ true → LiesIn rows columns (bar_of b) }
    ensures no { result ≡ false → LiesIn rows columns (bar_of b) → ⊥ }
{
    b.left <= b.right && (b.right as usize) < columns && (b.row as usize) < rows
}

// Whether each bar does.
fn all_lie(chart: &[u8], n: usize) -> bool
    requires { Bars chart.now n }
    ensures yes { result ≡ true → All (Lies (chart_in chart.now)) (below n) }
    ensures no { result ≡ false → All (Lies (chart_in chart.now)) (below n) → ⊥ }
{
    let rows = get16(chart, 0);
    let columns = get16(chart, 2);
    (0..n).all(|x| lies(corner_bar(chart, x), rows, columns))
}

// Whether the bars keep their rule, with the bars in order in the table if they do.
pub fn bars_keep(chart: &[u8], n: usize, spans: &mut [Span]) -> bool
    requires bars { Bars chart.now n × (n ≤ 1024) }
    requires size { length spans.old ≡ n }
    ensures yes { result ≡ true → BarRule (chart_in chart.now)
        × OrderedBars (chart_in chart.now).bar n spans.new }
    ensures no { result ≡ false → BarRule (chart_in chart.now) → ⊥ }
{
    all_lie(chart, n) && put_in_order(chart, n, spans)
}
