// Request (v): "A chart leaves out each row without one and closes up." One pass over the corners marks the rows that carry a bar, one over the rows numbers them.
ghost use Rattle.std.specs.Prelude.{◌≡◌, map, ℕ, ◌<◌, length, get_or};
ghost use Rattle.lists.specs.Lists.{All};
ghost use Rattle.chart.specs.Chart.{closed_row};
ghost use Rattle.drawing.specs.Marks.{Marked};

use keys::sort::sums;

// One more than a drawing has rows: no part needs more than 9 levels.
const ROWS: usize = 20;

// Marks the rows that carry a bar.
fn mark(rows: &[u16], marks: &mut [usize])
    requires inside { All (λ r. r < length marks.old) rows.now }
    requires zeros { (r : ℕ) → r < length marks.old → get_or marks.old r 0 ≡ 0 }
    ensures { Marked rows.now marks.new }
{
    for &row in rows {
        marks[usize::from(row)] = 1;
    }
}

// Gives each corner the new number of its row.
fn renumber(rows: &mut [u16], numbers: &[usize])
    requires inside { All (λ r. r < length numbers.now) rows.old }
    requires small { All (λ r. r < 65536) numbers.now }
    ensures { rows.new ≡ map (λ r. get_or numbers.now r 0) rows.old }
{
    for row in rows.iter_mut() {
        *row = numbers[usize::from(*row)] as u16;
    }
}

// Closes up the rows of the corners of a drawing that has `height` rows, and says how many carry a bar.
pub fn close(rows: &mut [u16], height: usize) -> usize
    requires inside { All (λ r. r < height) rows.old }
    requires few { height < 20 }
    ensures rows { rows.new ≡ map (closed_row rows.old) rows.old }
    ensures height { result ≡ closed_row rows.old height }
{
    let mut marks = [0usize; ROWS];
    mark(&rows[..], &mut marks);
    sums(&mut marks);
    renumber(rows, &marks);
    marks[height]
}
