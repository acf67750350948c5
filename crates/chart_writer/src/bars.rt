// The bar of each corner, and the column of each edge.
ghost use Rattle.std.specs.Prelude.{◌≡◌, map, ℕ, ◌<◌, ◌≤◌, length, get_or, drop};
ghost use Rattle.tree.specs.Table.{edge_at};
ghost use Rattle.chart.specs.Chart.{first, last};
ghost use Rattle.chart_writer.specs.Tables.{Uprights, FirstHold, Columns, NoColumns, Spans, rows_of, lefts_of, rights_of};

use chart::Bar;
use keys::{high, low};

// A bar for each corner, with its row: its first column is w, behind all, and its last is 0, until they are found.
pub fn begin_bars(rows: &[u16], w: u16, bars: &mut [Bar])
    requires { length rows.now ≤ length bars.old }
    ensures rows { (x : ℕ) → x < length rows.now → get_or (rows_of bars.new) x 0 ≡ get_or rows.now x 0 }
    ensures lefts { FirstHold (length rows.now) w (lefts_of bars.new) }
    ensures rights { FirstHold (length rows.now) 0 (rights_of bars.new) }
    ensures rest { drop (length rows.now) bars.new ≡ drop (length rows.now) bars.old }
{
    for (x, &row) in rows.iter().enumerate() {
        bars[x] = Bar {
            row,
            left: w,
            right: 0,
        };
    }
}

// From the last column to the first, so that the first column of a corner, and that of an edge, is stored last. An edge that is not upright has none.
fn lefts(tree: &[u32], columns: &[u16], bars: &mut [Bar], stands: &mut [Option<u16>])
    requires uprights { Uprights tree.now columns.now × (length columns.now < 65536) }
    requires size { length bars.old ≡ 1024 }
    requires none { NoColumns stands.old }
    ensures lefts { (x : ℕ) → get_or (lefts_of bars.old) x 0 ≡ length columns.now
        → get_or (lefts_of bars.new) x 0 ≡ first x (map (edge_at tree.now) columns.now) }
    ensures rights { rights_of bars.new ≡ rights_of bars.old }
    ensures rows { rows_of bars.new ≡ rows_of bars.old }
    ensures columns { Columns columns.now stands.new }
{
    for j in (0..columns.len()).rev() {
        let e = usize::from(columns[j]);
        let k = tree[e];
        stands[e] = Some(j as u16);
        bars[low(k)].left = j as u16;
        bars[high(k)].left = j as u16;
    }
}

// From the first column to the last.
fn rights(tree: &[u32], columns: &[u16], bars: &mut [Bar])
    requires uprights { Uprights tree.now columns.now × (length columns.now < 65536) }
    requires size { length bars.old ≡ 1024 }
    ensures rights { (x : ℕ) → get_or (rights_of bars.old) x 0 ≡ 0
        → get_or (rights_of bars.new) x 0 ≡ last x (map (edge_at tree.now) columns.now) }
    ensures lefts { lefts_of bars.new ≡ lefts_of bars.old }
    ensures rows { rows_of bars.new ≡ rows_of bars.old }
{
    for (j, &e) in columns.iter().enumerate() {
        let k = tree[usize::from(e)];
        bars[low(k)].right = j as u16;
        bars[high(k)].right = j as u16;
    }
}

// "u's bar starts in the piece's first column and v's ends in its last": those of corners 0 and n - 1.
pub fn spans(tree: &[u32], columns: &[u16], n: usize, bars: &mut [Bar], stands: &mut [Option<u16>])
    requires uprights { Uprights tree.now columns.now × (1 ≤ length columns.now) × (length columns.now < 65536) }
    requires corners { (1 ≤ n) × (n ≤ 1024) }
    requires size { length bars.old ≡ 1024 }
    requires left { FirstHold n (length columns.now) (lefts_of bars.old) }
    requires right { FirstHold n 0 (rights_of bars.old) }
    requires none { NoColumns stands.old }
    ensures spans { Spans n (map (edge_at tree.now) columns.now) (lefts_of bars.new) (rights_of bars.new) }
    ensures rows { rows_of bars.new ≡ rows_of bars.old }
    ensures columns { Columns columns.now stands.new }
{
    lefts(tree, columns, bars, stands);
    rights(tree, columns, bars);
    bars[0].left = 0;
    bars[n - 1].right = (columns.len() - 1) as u16;
}
