// The form of a chart's bytes: how many corners it has, and where its strokes start.
ghost use Rattle.std.specs.Prelude.{◌≡◌, true, false, ℕ, MatchOption, ◌*◌, ◌-◌, ◌<◌, ◌≤◌, length, take};
ghost use Rattle.chart.specs.Decode.{places, chart_in};
ghost use Rattle.nearest.specs.Held.{Bars};
ghost use Rattle.chart_reader.specs.Formed.{Formed};
ghost use Rattle.chart_reader.specs.Held.{Ending, StrokesFound};
ghost use Rattle.chart_reader.specs.Once.{found_once};

use codec::get16;
use keys::CORNERS;

// The bytes of a chart, how many corners it has, and where its strokes start, as they were found.
// What follows from `found` is said beside it: room for the bars, the sizes, and that rows and columns are numbers of two bytes.
#[derive(Drop)]
pub struct Strokes<'a> {
    pub chart: &'a [u8],
    pub n: usize,
    pub at: &'a [usize],
    pub ghost found: { StrokesFound chart.now n at.now } by { found_once chart.now n at.now },
    pub ghost bars: { Bars chart.now n },
    pub ghost sizes: { (3 ≤ n) × (n ≤ 1024) × (length at.now ≡ 2 * n - 3) },
    pub ghost small: { ((chart_in chart.now).rows < 65536) × ((chart_in chart.now).columns < 65536) },
}

// Finds the places of the strokes from `from` on, as many as there is room for, if their map bytes have at most bit 0 and they end where the bytes end.
fn stroke_places(chart: &[u8], from: usize, at: &mut [usize]) -> bool
    requires { (from ≤ 6150) × (length at.old ≤ 2045) }
    ensures yes { result ≡ true → (at.new ≡ places chart.now from (length at.old))
        × Ending chart.now from (length at.old) }
    ensures no { result ≡ false → Ending chart.now from (length at.old) → ⊥ }
{
    let mut p = from;
    for place in at.iter_mut() {
        if p >= chart.len() {
            return false;
        }
        let map = chart[p];
        if map >= 2 {
            return false;
        }
        *place = p;
        p += 5 + 2 * (map as usize);
    }
    p == chart.len()
}

// How many corners the chart has, with the places of its strokes in the table; none if the bytes are not those of a chart.
pub fn frame(chart: &[u8], at: &mut [usize]) -> Option<usize>
    requires { length at.old ≡ 2045 }
    ensures { MatchOption result (Formed chart.now → ⊥) (λ (n : ℕ). StrokesFound chart.now n (take (2 * n - 3) at.new)) }
{
    if chart.len() < 6 {
        return None;
    }
    let n = get16(chart, 4);
    if n < 3 || n > CORNERS {
        return None;
    }
    let m = 2 * n - 3;
    if !stroke_places(chart, 6 + 6 * n, &mut at[..m]) {
        return None;
    }
    Some(n)
}

// The strokes of a chart, with their places in the table lent, or none if the bytes are not those of a chart.
pub fn strokes_in<'a>(chart: &'a [u8], at: &'a mut [usize]) -> Option<Strokes<'a>>
    requires { length at.old ≡ 2045 }
    ensures { MatchOption result (Formed chart.now → ⊥) (λ s. s.chart.now ≡ chart.now) }
{
    let n = frame(chart, at)?;
    Some(Strokes {
        chart,
        n,
        at: &at[..2 * n - 3],
    })
}
