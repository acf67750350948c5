// The chart of a triangulated polygon, and the one reader of a bar and of a stroke in a chart's bytes.
// specs/ has the definitions, proofs/ the laws; proofs/Theorems.antt is the place to start reading.
#![tactic(auto)]

ghost use Rattle.std.specs.Prelude.{◌≡◌, ◌+◌, ◌*◌, ◌≤◌, length, get_or};
ghost use Rattle.codec.specs.Numbers.{get16};
ghost use Rattle.chart.specs.Decode.{bar_at, stroke_size, stroke_at, chart_in, bar_of, stroke_of};

use codec::get16;

// The bar of a corner: its row, its first and its last column.
#[derive(Clone, Copy, Debug, PartialEq, Eq)]
pub struct Bar {
    pub row: u16,
    pub left: u16,
    pub right: u16,
}

// The stroke of an edge: its corners, and the column of an upright one.
#[derive(Clone, Copy, Debug, PartialEq, Eq)]
pub struct Stroke {
    pub a: u16,
    pub b: u16,
    pub column: Option<u16>,
}

// The number of two bytes. No plainer by `from_be_bytes`: `get16` has the clause.
fn number(bytes: &[u8], at: usize) -> u16
    requires { at + 2 ≤ length bytes.now }
    ensures { result ≡ get16 bytes.now at }
{
    get16(bytes, at) as u16
}

// The bar at a place of the bytes.
pub fn bar_at(bytes: &[u8], at: usize) -> Bar
    requires { at + 6 ≤ length bytes.now }
    ensures { bar_of result ≡ bar_at bytes.now at }
{
    Bar {
        row: number(bytes, at),
        left: number(bytes, at + 2),
        right: number(bytes, at + 4),
    }
}

// The bar of corner x in the bytes of a chart.
pub fn corner_bar(chart: &[u8], x: usize) -> Bar
    requires { 12 + 6 * x ≤ length chart.now }
    ensures { bar_of result ≡ (chart_in chart.now).bar x }
{
    bar_at(chart, 6 + 6 * x)
}

// The stroke at a place of the bytes.
pub fn stroke_at(bytes: &[u8], at: usize) -> Stroke
    requires { at + stroke_size (get_or bytes.now at 0) ≤ length bytes.now }
    ensures { stroke_of result ≡ stroke_at bytes.now at }
{
    let column = if bytes[at] % 2 == 1 {
        Some(number(bytes, at + 5))
    } else {
        None
    };
    Stroke {
        a: number(bytes, at + 1),
        b: number(bytes, at + 3),
        column,
    }
}
