// The drawing of a part: the place of each column's upright among the edges, the row of each corner, and how many columns and rows there are.
// lines.rt says how the drawing goes on from a triangle, walk.rt writes the columns and rows; closing.rt leaves out the rows without bars afterwards.
// The definitions that the contracts cite are in specs/; Located.antt says what is drawn of a part.
#![tactic(auto)]

ghost use Rattle.std.specs.Prelude.{◌≡◌, length};
ghost use Rattle.polygon.specs.Tree.{Tree};
ghost use Rattle.levels.specs.Kept.{Filled};
ghost use Rattle.drawing.specs.Located.{Located};

use crate::lines::{Line, Way};
use crate::walk::{COLUMNS, draw_piece};
use keys::CORNERS;
use levels::Tables;
use umbrella::roles::Role;

pub mod closing;
pub mod lines;
pub mod walk;

// How many columns and rows a drawing has.
#[derive(Clone, Copy)]
pub struct Size {
    pub columns: usize,
    pub rows: usize,
}

// Draws the part of n corners whose tables are filled. "Two rows a level and one more."
pub fn place(
    n: usize,
    tables: &Tables,
    columns: &mut [u16; COLUMNS],
    rows: &mut [u16; CORNERS],
) -> Size
    requires filled { (t : Tree) × Filled n t tables.now.tree tables.now.depths tables.now.root }
    requires room { (length columns.old ≡ 2048) × (length rows.old ≡ 1024) }
    ensures { (t : Tree) → Filled n t tables.now.tree tables.now.depths tables.now.root
        → Located n t tables.now.tree columns.new rows.new result }
{
    let top = Line {
        base: 0,
        down: true,
    };
    let w = Way {
        role: Role::Hung,
        turned: false,
        d: 0,
        far: top,
        near: top,
    };
    rows[0] = 0;
    rows[n - 1] = 0;
    let c = draw_piece(tables, columns, rows, tables.root, w, 0);
    let ud = usize::from(tables.values(tables.root.e).ud);
    Size {
        columns: c,
        rows: 2 * ud + 1,
    }
}
