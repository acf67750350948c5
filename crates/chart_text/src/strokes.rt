// The strokes of a chart in words, from left to right: a key for each, by where it stands, the keys in order, then a line for each key.
ghost use Rattle.std.specs.Prelude.{◌≡◌, ◌+◌, ◌*◌, ◌%◌, ◌<◌, ◌≤◌, length, take};
ghost use Rattle.lists.specs.Lists.{All};
ghost use Rattle.polygon.specs.Polygon.{◌—◌};
ghost use Rattle.keys.specs.Sort.{sort_keys};
ghost use Rattle.chart.specs.Decode.{stroke_of};
ghost use Rattle.log_line.specs.Put.{Put};
ghost use Rattle.chart_reader.specs.Rules.{Named};
ghost use Rattle.chart_reader.specs.Strokes.{chart_of};
ghost use Rattle.chart_reader.specs.Held.{StrokeIn};
ghost use Rattle.chart_text.specs.Text.{stroke_name, edge_name, stroke_line, standing, stroke_lines};
ghost use Rattle.chart_text.specs.Ordered.{stroke_keys, key_lines};

use chart::{Stroke, stroke_at};
use chart_reader::Ends;
use chart_reader::frame::Strokes;
use chart_reader::part::is_diagonal;
use chart_reader::strokes::stroke_ends;
use keys::sort::sort;
use keys::{EDGES, key};
use log_line::{put_field, put_word};

// The key of a stroke whose number is i: where it stands, and then the number.
fn stroke_key(strokes: &Strokes, s: Stroke, i: usize) -> u32
    requires { StrokeIn strokes.now.n s × (i < 2048) }
    ensures { result ≡ standing (chart_of strokes.now) (stroke_of s) * 2048 + i }
{
    let first = stroke_ends(strokes.chart, s, strokes.n).first;
    match s.column {
        None => ((2 * first.column + 1) * 2048 + i) as u32,
        Some(_) => (2 * first.column * 2048 + i) as u32,
    }
}

// Writes the keys of the strokes at these places.
fn stroke_keys(strokes: &Strokes, keys: &mut [u32])
    requires { All (Named (chart_of strokes.now)) (chart_of strokes.now).strokes
        × (length strokes.now.at.now ≤ length keys.old) }
    ensures { take (length strokes.now.at.now) keys.new ≡ stroke_keys strokes.now.chart.now strokes.now.at.now }
{
    for (i, &place) in strokes.at.iter().enumerate() {
        keys[i] = stroke_key(strokes, stroke_at(strokes.chart, place), i);
    }
}

// Writes them in order; `spare` is overwritten.
fn order(strokes: &Strokes, keys: &mut [u32], spare: &mut [u32])
    requires strokes { All (Named (chart_of strokes.now)) (chart_of strokes.now).strokes }
    requires room { (length strokes.now.at.now ≤ length keys.old) × (length strokes.now.at.now ≤ length spare.old) }
    ensures { take (length strokes.now.at.now) keys.new ≡ sort_keys (stroke_keys strokes.now.chart.now strokes.now.at.now) }
{
    stroke_keys(strokes, keys);
    let m = strokes.at.len();
    sort(&mut keys[..m], spare);
}

// Writes how a stroke is found on the tape.
fn put_name(out: &mut [u8], from: usize, strokes: &Strokes, s: Stroke) -> usize
    requires { StrokeIn strokes.now.n s × (from + 50 ≤ length out.old) }
    ensures text { Put (stroke_name (chart_of strokes.now) (stroke_of s)) out.old from out.new result }
    ensures within { result ≤ from + 20 }
{
    let Ends { first, last } = stroke_ends(strokes.chart, s, strokes.n);
    match s.column {
        None => {
            let a = put_field(out, from, b"level ", first.column);
            put_field(out, a, b" to ", last.column)
        }
        Some(_) => put_field(out, from, b"line ", first.column),
    }
}

// Writes the corners a and b of a stroke, and whether it is a bend or a side of n corners.
fn put_edge(out: &mut [u8], from: usize, a: usize, b: usize, n: usize) -> usize
    requires { (from + 56 ≤ length out.old) × (a < 1024) × (b < 1024) × (n ≤ 1024) }
    ensures text { Put (edge_name n (a — b)) out.old from out.new result }
    ensures within { result ≤ from + 24 }
{
    let c = put_field(out, from, b" corners ", a);
    let d = put_field(out, c, b" ", b);
    if is_diagonal(key(a, b), n) {
        return put_word(out, d, b" bend\n");
    }
    put_word(out, d, b" side\n")
}

// Writes the line of a stroke.
fn put_stroke(out: &mut [u8], from: usize, strokes: &Strokes, s: Stroke) -> usize
    requires { StrokeIn strokes.now.n s × (from + 128 ≤ length out.old) }
    ensures text { Put (stroke_line (chart_of strokes.now) (stroke_of s)) out.old from out.new result }
    ensures within { result ≤ from + 44 }
{
    let next = put_name(out, from, strokes, s);
    put_edge(out, next, s.a as usize, s.b as usize, strokes.n)
}

// Writes the line of each key's stroke.
fn put_lines(out: &mut [u8], from: usize, strokes: &Strokes, keys: &[u32]) -> usize
    requires strokes { All (Named (chart_of strokes.now)) (chart_of strokes.now).strokes }
    requires room { All (λ k. k % 2048 < length strokes.now.at.now) keys.now × (from + 44 * length keys.now + 128 ≤ length out.old) }
    ensures text { Put (key_lines strokes.now.chart.now strokes.now.at.now keys.now) out.old from out.new result }
    ensures within { result ≤ from + 44 * length keys.now }
{
    let mut end = from;
    for &key in keys {
        let i = (key % 2048) as usize;
        let s = stroke_at(strokes.chart, strokes.at[i]);
        end = put_stroke(out, end, strokes, s);
    }
    end
}

// Writes the lines of the strokes, from left to right.
pub fn put_strokes(out: &mut [u8], from: usize, strokes: &Strokes) -> usize
    requires strokes { All (Named (chart_of strokes.now)) (chart_of strokes.now).strokes }
    requires room { from + 44 * length strokes.now.at.now + 128 ≤ length out.old }
    ensures text { Put (stroke_lines (chart_of strokes.now)) out.old from out.new result }
    ensures within { result ≤ from + 44 * length strokes.now.at.now }
{
    let mut keys = [0u32; EDGES];
    let mut spare = [0u32; EDGES];
    order(strokes, &mut keys, &mut spare);
    let m = strokes.at.len();
    put_lines(out, from, strokes, &keys[..m])
}
