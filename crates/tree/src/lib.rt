// The tree of a part in one table: all its edges ascending, and for each corner the place of its last edge. A piece is known by its root edge.
// In that order the edge (u,c) of a triangle (u,c,v) stands just before (u,v), and (c,v) is the last edge of c; so a piece is opened by two reads.
// specs/Table.antt says which tree stands in the table; edges.rt lists the edges.
#![tactic(auto)]

ghost use Rattle.std.specs.Prelude.{◌≡◌, ℕ, ◌+◌, ◌*◌, ◌-◌, ◌<◌, ◌≤◌, length, take, get_or};
ghost use Rattle.polygon.specs.Polygon.{Triangulated};
ghost use Rattle.polygon.specs.Edges.{edges};
ghost use Rattle.polygon.specs.Tree.{tree_of};
ghost use Rattle.keys.specs.Keys.{edges_of};
ghost use Rattle.tree.specs.Table.{SomeTreeAt, beyond, Lasts, Whole};

use crate::edges::list_edges;
use keys::low;

pub mod edges;

// The place of the last edges: that of corner c stands at LAST + c.
pub const LAST: usize = 2048;

// How many places the table has.
pub const PLACES: usize = 3072;

// A piece by its root edge: the place e of that edge, and its two corners.
#[derive(Clone, Copy)]
pub struct Root {
    pub e: u16,
    pub u: u16,
    pub v: u16,
}

// The pieces beyond the other two edges of a piece's triangle.
#[derive(Clone, Copy)]
pub struct Two {
    pub left: Root,
    pub right: Root,
}

// Opens a piece that is no side.
pub fn open(tree: &[u32; PLACES], p: Root) -> Two
    requires shown { SomeTreeAt tree.now p }
    requires apart { p.u + 1 < p.v }
    ensures { result ≡ beyond tree.now p }
{
    let e = usize::from(p.e);
    let c = tree[e - 1] % 1024;
    let r = tree[LAST + c as usize];
    let left = Root {
        e: p.e - 1,
        u: p.u,
        v: c as u16,
    };
    let right = Root {
        e: r as u16,
        u: c as u16,
        v: p.v,
    };
    Two { left, right }
}

// Stores the place of each corner's last edge.
fn place_lasts(tree: &mut [u32], m: usize)
    requires { (m ≤ 2045) × (length tree.old ≡ 3072) × ((j : ℕ) → j < m → get_or tree.old j 0 < 1048576) }
    ensures edges { take 2048 tree.new ≡ take 2048 tree.old }
    ensures lasts { Lasts m tree.new }
{
    for j in 0..m {
        let c = low(tree[j]);
        tree[LAST + c] = j as u32;
    }
}

// Fills a table of zeros from the keys of a part's diagonals, and gives the whole part.
pub fn build(keys: &[u32], n: usize, tree: &mut [u32]) -> Root
    requires part { Triangulated n (edges_of keys.now) × (n ≤ 1024) }
    requires room { length tree.old ≡ 3072 }
    requires fresh { (i : ℕ) → get_or tree.old i 0 ≡ 0 }
    ensures edges { edges_of (take (2 * n - 3) tree.new) ≡ edges 0 (tree_of n (edges_of keys.now)) }
    ensures rest { (j : ℕ) → 2 * n - 3 ≤ j → j < 2048 → get_or tree.new j 0 ≡ 0 }
    ensures whole { Whole n (tree_of n (edges_of keys.now)) tree.new result }
{
    let m = 2 * n - 3;
    list_edges(keys, n, tree);
    place_lasts(tree, m);
    Root {
        e: tree[LAST] as u16,
        u: 0,
        v: (n - 1) as u16,
    }
}
