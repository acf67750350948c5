// The bars of a chart as records, for the tape driver: from the chart's bytes into a lent slice of structs.
#![tactic(auto)]

ghost use Rattle.std.specs.Prelude.{◌≡◌, ◌+◌, ◌*◌, ◌≤◌, length};
ghost use Rattle.bar_list.specs.Bars.{filled};

use chart::{Bar, corner_bar};

// Puts the bars of the chart's n corners into the first n records.
pub fn fill_bars(chart: &[u8], n: usize, bars: &mut [Bar])
    requires { (n ≤ length bars.old) × (6 + 6 * n ≤ length chart.now) }
    ensures { bars.new ≡ filled chart.now n bars.old }
{
    for (i, bar) in bars[..n].iter_mut().enumerate() {
        *bar = corner_bar(chart, i);
    }
}
