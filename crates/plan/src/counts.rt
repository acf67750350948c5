// The umbrellas and stems of the plan drawn, counted over the tree: a piece's larger part is gone into, a call is made for the smaller one, and the span v - u falls at each.
// The roles of the pieces say how the plan goes on from a triangle to the two pieces beyond (roles.rt of the crate umbrella); specs/Counts.antt has the same in definitions.
ghost use Rattle.std.specs.Prelude.{◌≡◌, ◌⊎◌, ◌+◌, ◌<◌, ◌≤◌, max, min};
ghost use Rattle.polygon.specs.Tree.{Tree};
ghost use Rattle.levels.specs.Kept.{Tabled};
ghost use Rattle.plan.specs.Counts.{adds, counted, spot, fork_of, low_fork, Forked};

use levels::Tables;
use tree::{Root, Two};
use umbrella::roles::{Role, Step, levels_under, step_at};

// Umbrellas and stems.
#[derive(Drop)]
pub struct Tally {
    pub umbrellas: u16,
    pub stems: u16,
}

// A piece, its role, and the levels under its umbrella; for a hung piece d is not looked at.
#[derive(Clone, Copy)]
struct Spot {
    piece: Root,
    role: Role,
    d: u16,
}

// What a triangle adds, and the two pieces that are left to be counted, the smaller one first; at an umbrella with one level none are.
#[derive(Drop)]
struct Fork {
    adds: Tally,
    rest: Option<(Spot, Spot)>,
}

// What the triangle of a piece adds: x if the piece is hung, y if it lies on a rim.
fn adds(role: Role, x: u16, y: u16) -> u16
    ensures { result ≡ adds role x y }
{
    match role {
        Role::Hung => x,
        Role::LeftRim | Role::RightRim => y,
        Role::FromLeft | Role::FromRight => 0,
    }
}

// The larger of the two pieces beyond a triangle is left for last; k levels are under their umbrella.
fn larger_last(role: Role, k: u16, t: Two, s: Step) -> Fork
    requires { (t.left.u ≤ t.left.v) × (t.right.u ≤ t.right.v) }
    ensures { (result ≡ fork_of role s (spot k t.left s.left) (spot k t.right s.right))
        ⊎ (result ≡ fork_of role s (spot k t.right s.right) (spot k t.left s.left)) }
{
    let adds = Tally {
        umbrellas: adds(role, 1, 0),
        stems: adds(role, 0, u16::from(s.crossed)),
    };
    let left = Spot {
        piece: t.left,
        role: s.left,
        d: k,
    };
    let right = Spot {
        piece: t.right,
        role: s.right,
        d: k,
    };
    let rest = if t.right.v - t.right.u < t.left.v - t.left.u {
        Some((right, left))
    } else {
        Some((left, right))
    };
    Fork { adds, rest }
}

// An umbrella with one level: nothing is left to be counted. Only sides are hung on it, so it has a stem if a piece on its rim is no side.
// a and b are the levels of its fans.
fn one_level(a: u16, b: u16) -> Fork
    ensures { result ≡ low_fork (min (max a b) 1) }
{
    let adds = Tally {
        umbrellas: 1,
        stems: a.max(b).min(1),
    };
    Fork { adds, rest: None }
}

// Counts at the triangle of a piece that is no side.
fn triangle(tables: &Tables, x: Spot) -> Fork
    requires known { (t : Tree) × Tabled tables.now.tree tables.now.depths x.piece.e x.piece.u x.piece.v t }
    requires apart { x.piece.u + 1 < x.piece.v }
    ensures { (t : Tree) → Tabled tables.now.tree tables.now.depths x.piece.e x.piece.u x.piece.v t
        → Forked tables.now.tree tables.now.depths x t result }
{
    let p = x.piece;
    let role = x.role;
    let own = tables.values(p.e);
    if own.ud == 1 && matches!(role, Role::Hung) {
        return one_level(own.fan_a, own.fan_b);
    }
    let t = tables.open(p);
    let l = tables.values(t.left.e);
    let r = tables.values(t.right.e);
    let s = step_at(role, x.d, l.ud, r.ud, l.handle);
    larger_last(role, levels_under(role, x.d, own.ud - 1), t, s)
}

// Counts in the piece p, by its role with d levels under the umbrella; for a hung piece d is not looked at.
pub fn count(tables: &Tables, p: Root, role: Role, d: u16) -> Tally
    requires { (t : Tree) × Tabled tables.now.tree tables.now.depths p.e p.u p.v t }
    ensures { (t : Tree) → Tabled tables.now.tree tables.now.depths p.e p.u p.v t → result ≡ counted role d t }
{
    let mut x = Spot { piece: p, role, d };
    let mut umbrellas: u16 = 0;
    let mut stems: u16 = 0;
    while x.piece.u + 1 < x.piece.v {
        let w = triangle(tables, x);
        umbrellas += w.adds.umbrellas;
        stems += w.adds.stems;
        let Some((small, large)) = w.rest else {
            return Tally { umbrellas, stems };
        };
        if small.piece.u + 1 < small.piece.v {
            let c = count(tables, small.piece, small.role, small.d);
            umbrellas += c.umbrellas;
            stems += c.stems;
        }
        x = large;
    }
    Tally { umbrellas, stems }
}
