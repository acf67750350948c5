// The chart's bytes from the tables of a drawing: all edges of the part ascending, the place of each column's upright among them, the row of each corner.
// bars.rt finds the bar of each corner and the column of each edge, bytes.rt writes them.
#![tactic(auto)]

ghost use Rattle.std.specs.Prelude.{◌≡◌, List, ℕ, ◌*◌, ◌-◌};
ghost use Rattle.polygon.specs.Polygon.{Edge};
ghost use Rattle.codec.specs.Answer.{answered, written, write};
ghost use Rattle.chart.specs.Chart.{layout};
ghost use Rattle.chart.specs.Bytes.{bytes_of};
ghost use Rattle.chart_writer.specs.Tables.{Sizes, Edges, Among, Laid};

use crate::bars::{begin_bars, spans};
use crate::bytes::{put_bars, put_strokes, strokes_size};
use chart::Bar;
use codec::{Refusal, put16};
use keys::{CORNERS, EDGES};

pub mod bars;
pub mod bytes;

// Writes the chart of a part with n corners, if the output is long enough: `height` is the number of its rows, the first 2n-3 numbers of `tree` are the keys of its edges.
pub fn write_chart(
    n: usize,
    height: usize,
    tree: &[u32],
    columns: &[u16],
    rows: &[u16],
    out: &mut [u8],
) -> Result<usize, Refusal>
    requires sizes { Sizes n height tree.now columns.now rows.now }
    requires edges { Edges (2 * n - 3) tree.now }
    requires places { Among (2 * n - 3) columns.now }
    ensures { (rs : List ℕ) (us es : List Edge)
        → Laid n tree.now columns.now rows.now rs us es
        → answered result out.new ≡ written (write (bytes_of (layout (n - 1) height rs us es))) out.old }
{
    let w = columns.len();
    let blank = Bar {
        row: 0,
        left: 0,
        right: 0,
    };
    let mut bars = [blank; CORNERS];
    let mut stands = [None; EDGES];
    begin_bars(&rows[..n], w as u16, &mut bars);
    spans(tree, columns, n, &mut bars, &mut stands);
    let m = 2 * n - 3;
    let from = 6 + 6 * n;
    let size = from + strokes_size(&stands, m);
    if out.len() < size {
        return Err(Refusal::Room);
    }
    put16(out, 0, height);
    put16(out, 2, w);
    put16(out, 4, n);
    put_bars(out, &bars[..n]);
    put_strokes(out, from, m, tree, &stands);
    Ok(size)
}
