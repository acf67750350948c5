// The line of a part's counts, in the rows and columns of any chart.
ghost use Rattle.std.specs.Prelude.{◌≤◌, length};
ghost use Rattle.log_line.specs.Put.{Put};
ghost use Rattle.log_line.specs.Line.{line};
ghost use Rattle.draw.specs.Told.{told};

use log_line::{Facts, put_line};
use plan::Totals;
use sheet::Head;

// Writes the line of the part of a head with these counts, rows and columns, and says how long it is.
pub fn counts_line(h: Head, c: Totals, rows: usize, columns: usize, out: &mut [u8]) -> usize
    requires { 256 ≤ length out.old }
    ensures { Put (line (told h c rows columns)) out.old 0 out.new result }
{
    let f = Facts {
        corners: h.n,
        levels: usize::from(c.levels),
        umbrellas: usize::from(c.umbrellas),
        stems: usize::from(c.stems),
        rows,
        columns,
    };
    put_line(f, out)
}
