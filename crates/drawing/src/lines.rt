// The rows of a piece by lines, and the way on from a triangle of a rim or a stem.
ghost use Rattle.std.specs.Prelude.{◌≡◌, ◌*◌, ◌≤◌};
ghost use Rattle.drawing.specs.Lines.{row_at, far_line, near_line};
ghost use Rattle.drawing.specs.Walk.{beside_line, next_of, rims_of};

use tree::{Root, Two};
use umbrella::roles::{Role, Step};

// The row of the part on which row 0 of a hung piece lies, and whether its rows go down from there. Rows are numbered downwards.
#[derive(Clone, Copy)]
pub struct Line {
    pub base: u16,
    pub down: bool,
}

// How a piece is drawn: its role in the umbrella and the levels under that, whether it is reversed, and the lines of the umbrella's far and near row.
#[derive(Clone, Copy)]
pub struct Way {
    pub role: Role,
    pub turned: bool,
    pub d: u16,
    pub far: Line,
    pub near: Line,
}

// On from a triangle: the piece beside the rim or stem and how it is drawn, the piece that the rim or stem goes on to and its role.
#[derive(Clone, Copy)]
pub struct Next {
    pub beside: Root,
    pub way: Way,
    pub on: Root,
    pub role: Role,
}

// The two rims of an umbrella in the order of their columns.
#[derive(Clone, Copy)]
pub struct Rims {
    pub first: Root,
    pub second: Root,
    pub role: Role,
    pub other: Role,
}

// Row r of a piece on a line.
fn row_at(m: Line, r: u16) -> u16
    requires { (m.base ≤ 60000) × (r ≤ 100) }
    ensures { result ≡ row_at m r }
{
    if m.down {
        m.base + r
    } else {
        m.base.saturating_sub(r)
    }
}

// The line of row 2D of a piece of D levels.
pub fn far_line(levels: u16, m: Line) -> Line
    requires { (m.base ≤ 60000) × (levels ≤ 50) }
    ensures { result ≡ far_line levels m }
{
    Line {
        base: row_at(m, 2 * levels),
        down: !m.down,
    }
}

// The line of row 1.
pub fn near_line(m: Line) -> Line
    requires { m.base ≤ 60000 }
    ensures { result ≡ near_line m }
{
    Line {
        base: row_at(m, 1),
        down: m.down,
    }
}

// Crossed, the rim beyond the gate and the pieces hung beside a stem lie on the near line.
pub fn beside_line(crossed: bool, w: Way) -> Line
    ensures { result ≡ beside_line crossed w.far w.near }
{
    if crossed { w.near } else { w.far }
}

// The way on from the triangle of the pieces t, after the step s; `right`: the rim or stem is built from the right.
pub fn go_on(t: Two, s: Step, right: bool, w: Way) -> Next
    ensures { result ≡ next_of t s right w }
{
    let turned = right != s.crossed;
    let (beside, beside_role, on, role) = if turned {
        (t.right, s.right, t.left, s.left)
    } else {
        (t.left, s.left, t.right, s.right)
    };
    let way = Way {
        role: beside_role,
        turned,
        d: w.d,
        far: beside_line(s.crossed, w),
        near: w.near,
    };
    Next {
        beside,
        way,
        on,
        role,
    }
}

// The rims of an umbrella, reversed or not.
pub fn rims_of(t: Two, turned: bool) -> Rims
    ensures { result ≡ rims_of t turned }
{
    let left = (t.left, Role::LeftRim);
    let right = (t.right, Role::RightRim);
    let ((first, role), (second, other)) = if turned { (right, left) } else { (left, right) };
    Rims {
        first,
        second,
        role,
        other,
    }
}
