// The bars and the strokes in bytes.
ghost use Rattle.std.specs.Prelude.{◌≡◌, List, ℕ, ◌+◌, ◌*◌, ◌<◌, ◌≤◌, length};
ghost use Rattle.std.proofs.lemmas.List.Edits.{sets};
ghost use Rattle.chart.specs.Bytes.{bar_bytes, stroke_bytes};
ghost use Rattle.chart.specs.Decode.{bar_of};
ghost use Rattle.chart_writer.specs.Tables.{EdgeKeys, stroke_map, edge_bytes, edge_stroke, bar_run, stroke_run, rows_of, lefts_of, rights_of};

use chart::Bar;
use codec::put16;
use keys::{high, low};

// A bar: row, left, right.
fn put_bar(out: &mut [u8], at: usize, bar: Bar)
    requires { at + 6 ≤ length out.old }
    ensures { out.new ≡ sets out.old at (bar_bytes (bar_of bar)) }
{
    put16(out, at, usize::from(bar.row));
    put16(out, at + 2, usize::from(bar.left));
    put16(out, at + 4, usize::from(bar.right));
}

// The bars of the corners, from byte 6 on.
pub fn put_bars(out: &mut [u8], bars: &[Bar])
    requires { 6 + 6 * length bars.now ≤ length out.old }
    ensures { out.new ≡ sets out.old 6 (bar_run (rows_of bars.now) (lefts_of bars.now) (rights_of bars.now) (length bars.now)) }
{
    for (x, &bar) in bars.iter().enumerate() {
        put_bar(out, 6 + 6 * x, bar);
    }
}

// The map byte of a stroke: 1 if it is upright.
fn map_byte(c: Option<u16>) -> u8
    ensures { (result ≡ stroke_map c) × (result ≤ 1) }
{
    u8::from(c.is_some())
}

// The map byte and the two corners of a stroke.
fn put_edge(out: &mut [u8], at: usize, k: u32, c: Option<u16>)
    requires { (at + 5 ≤ length out.old) × (k < 1047552) }
    ensures { out.new ≡ sets out.old at (edge_bytes k c) }
{
    out[at] = map_byte(c);
    put16(out, at + 1, low(k));
    put16(out, at + 3, high(k));
}

// The stroke of an edge, with its column if it is upright. Returns the place behind it.
fn put_stroke(out: &mut [u8], at: usize, k: u32, c: Option<u16>) -> usize
    requires { (at + length (stroke_bytes (edge_stroke k c)) ≤ length out.old) × (k < 1047552) }
    ensures bytes { out.new ≡ sets out.old at (stroke_bytes (edge_stroke k c)) }
    ensures place { result ≡ at + length (stroke_bytes (edge_stroke k c)) }
{
    put_edge(out, at, k, c);
    let Some(column) = c else {
        return at + 5;
    };
    put16(out, at + 5, usize::from(column));
    at + 7
}

// How many bytes the strokes of m edges take.
pub fn strokes_size(stands: &[Option<u16>], m: usize) -> usize
    requires { (m ≤ length stands.now) × (m ≤ 2045) }
    ensures size { (tr : List ℕ) → result ≡ length (stroke_run tr stands.now m) }
    ensures within { result ≤ 7 * m }
{
    let mut size = 0;
    for &c in &stands[..m] {
        size += 5 + 2 * usize::from(map_byte(c));
    }
    size
}

// The strokes of m edges, from a byte on.
pub fn put_strokes(out: &mut [u8], from: usize, m: usize, tree: &[u32], stands: &[Option<u16>])
    requires keyed { EdgeKeys m tree.now }
    requires some { (m ≤ length tree.now) × (m ≤ length stands.now) }
    requires room { from + length (stroke_run tree.now stands.now m) ≤ length out.old }
    ensures { out.new ≡ sets out.old from (stroke_run tree.now stands.now m) }
{
    let mut at = from;
    for (&k, &c) in tree[..m].iter().zip(&stands[..m]) {
        at = put_stroke(out, at, k, c);
    }
}
