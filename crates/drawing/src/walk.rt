// The place of each column's upright from the left, and the row of each corner: "Columns are filled from the left, one upright each; a hung piece takes as many columns as its own drawing."
// Drawing a piece and drawing a stem call each other; the span of the corners falls. A rim or a stem is followed in a loop, so that calls are as deep as hung pieces lie in one another.
ghost use Rattle.std.specs.Prelude.{◌≡◌, false, ◌≤◌, length};
ghost use Rattle.polygon.specs.Tree.{Tree};
ghost use Rattle.umbrella.specs.declared.roles.Role.TheVariants.{Hung};
ghost use Rattle.umbrella.specs.Roles.{is_hung};
ghost use Rattle.levels.specs.Kept.{Tabled};
ghost use Rattle.drawing.specs.Walk.{Walked, Room};

use crate::lines::{Way, beside_line, far_line, go_on, near_line, rims_of};
use keys::CORNERS;
use levels::Tables;
use tree::Root;
use umbrella::roles::{Role, from_right, step_at};

// How many columns there is room for.
pub const COLUMNS: usize = 2048;

// Draws a hung piece: the two rims of its umbrella. Returns the place behind its columns.
#[cycle(draw_beside_draw_piece_draw_stem)]
pub fn draw_piece(
    tables: &Tables,
    columns: &mut [u16; COLUMNS],
    rows: &mut [u16; CORNERS],
    p: Root,
    w: Way,
    at: usize,
) -> usize
    requires known { (t : Tree) × Tabled tables.now.tree tables.now.depths p.e p.u p.v t }
    requires room { Room p w at columns.old rows.old }
    requires hung { w.role ≡ Hung }
    ensures { (t : Tree) → Tabled tables.now.tree tables.now.depths p.e p.u p.v t
        → Walked tables.now.tree p w t at columns.old rows.old columns.new rows.new result }
{
    if p.v <= p.u + 1 {
        return at;
    }
    let t = tables.open(p);
    let ud = tables.values(p.e).ud;
    let far = far_line(ud, w.far);
    let near = near_line(w.far);
    rows[usize::from(t.left.v)] = far.base;
    let r = rims_of(t, w.turned);
    let first = Way {
        role: r.role,
        turned: w.turned,
        d: ud - 1,
        far,
        near,
    };
    let second = Way {
        role: r.other,
        ..first
    };
    let k = draw_stem(tables, columns, rows, r.first, first, at);
    draw_stem(tables, columns, rows, r.second, second, k)
}

// Draws a rim or a stem: the column of each of its edges, and the pieces beside it. It is written as it is built, and turned if its columns are to stand the other way round.
#[cycle(draw_beside_draw_piece_draw_stem)]
fn draw_stem(
    tables: &Tables,
    columns: &mut [u16; COLUMNS],
    rows: &mut [u16; CORNERS],
    p: Root,
    w: Way,
    at: usize,
) -> usize
    requires known { (t : Tree) × Tabled tables.now.tree tables.now.depths p.e p.u p.v t }
    requires room { Room p w at columns.old rows.old }
    requires walked { is_hung w.role ≡ false }
    ensures { (t : Tree) → Tabled tables.now.tree tables.now.depths p.e p.u p.v t
        → Walked tables.now.tree p w t at columns.old rows.old columns.new rows.new result }
{
    let mut role = w.role;
    let right = from_right(role);
    let mut x = p;
    let mut k = at;
    while x.u + 1 < x.v {
        columns[k] = x.e;
        k += 1;
        let t = tables.open(x);
        let a = tables.values(t.left.e);
        let b = tables.values(t.right.e);
        let s = step_at(role, w.d, a.ud, b.ud, a.handle);
        let n = go_on(t, s, right, w);
        let line = beside_line(s.crossed, w);
        rows[usize::from(t.left.v)] = line.base;
        k = draw_beside(tables, columns, rows, n.beside, n.way, k);
        x = n.on;
        role = n.role;
    }
    columns[k] = x.e;
    k += 1;
    let turn = right != w.turned;
    if turn {
        columns[at..k].reverse();
    }
    k
}

// Draws a piece beside a rim or a stem: a hung piece, or the rim beyond the gate.
#[cycle(draw_beside_draw_piece_draw_stem)]
fn draw_beside(
    tables: &Tables,
    columns: &mut [u16; COLUMNS],
    rows: &mut [u16; CORNERS],
    p: Root,
    w: Way,
    at: usize,
) -> usize
    requires known { (t : Tree) × Tabled tables.now.tree tables.now.depths p.e p.u p.v t }
    requires room { Room p w at columns.old rows.old }
    ensures { (t : Tree) → Tabled tables.now.tree tables.now.depths p.e p.u p.v t
        → Walked tables.now.tree p w t at columns.old rows.old columns.new rows.new result }
{
    if matches!(w.role, Role::Hung) {
        draw_piece(tables, columns, rows, p, w, at)
    } else {
        draw_stem(tables, columns, rows, p, w, at)
    }
}
