// The six values of each edge by the steps of document 004, chapter 6, in its order: the handle's, the fans', the partial umbrellas', the whole's.
// They are worked out recursively over the tree: a piece's larger part is gone into, a call is made for the smaller one, and the span v - u falls at each.
// They are kept in one table of bytes, six for each edge, the edges ascending; 0 for a side other than the root.
// Definitions: Values.antt of the crate umbrella; specs/Kept.antt says how the table holds them.
// (`kept` in proofs/Theorems.antt: what stands at the place of each edge.)
#![tactic(auto)]

ghost use Rattle.std.specs.Prelude.{◌≡◌, ◌⊎◌, ℕ, ◌+◌, ◌*◌, ◌-◌, ◌<◌, ◌≤◌, max, min, length, get_or};
ghost use Rattle.polygon.specs.Polygon.{Triangulated};
ghost use Rattle.polygon.specs.Tree.{Tree, leaf, node, tree_of};
ghost use Rattle.keys.specs.Keys.{edges_of};
ghost use Rattle.tree.specs.Table.{right_edge, TreeAt, SomeTreeAt, beyond};
ghost use Rattle.levels.specs.Kept.{six, join, SideZero, six_at, with_six, Small, Leaves, Deep, PartsHeld, Grows, Rising, Blank, Filled};

use keys::CORNERS;
use tree::{LAST, PLACES, Root, Two, build, open};

// How many places the table of values has.
pub const VALUES: usize = 12270;

// The six values of an edge (a,b), a the lower corner: of its handle, of the fans of a and of b, of the partial umbrellas of a and of b, and of the whole.
#[derive(Clone, Copy)]
pub struct Six {
    pub handle: u16,
    pub fan_a: u16,
    pub fan_b: u16,
    pub partial_a: u16,
    pub partial_b: u16,
    pub ud: u16,
}

// The smaller of the larger of a and b and the larger of c and d.
fn least(a: u16, b: u16, c: u16, d: u16) -> u16
    ensures { result ≡ min (max a b) (max c d) }
{
    a.max(b).min(c.max(d))
}

// Lemma 6.4 at a corner: 0 if the piece beside it has no levels, being empty; else by the fan of that piece and the piece that hangs on it.
fn fan(beside: u16, fan: u16, ud: u16) -> u16
    requires { beside ≡ 0 → (fan ≡ 0) × (ud ≡ 0) }
    ensures { result ≡ max fan ud }
{
    if beside == 0 {
        return 0;
    }
    fan.max(ud)
}

// Lemma 6.6 likewise, with a stem through at most one of the pieces that hang.
fn partial(beside: u16, partial: u16, ud: u16, fan: u16, handle: u16) -> u16
    requires { beside ≡ 0 → (partial ≡ 0) × (ud ≡ 0) × (fan ≡ 0) × (handle ≡ 0) }
    ensures { result ≡ min (max partial ud) (max fan handle) }
{
    if beside == 0 {
        return 0;
    }
    least(partial, ud, fan, handle)
}

// The values of an edge (a,b) whose triangle is (a,c,b), by the lemmas of document 004, chapter 6.
// The edges are named by the corners of its Figure 6.2, d beyond (a,c) and e beyond (c,b).
fn join(ac: Six, cb: Six, dc: Six, ce: Six) -> Six
    requires fits { (join ac cb dc ce).ud ≤ 9 }
    requires left { SideZero ac dc }
    requires right { SideZero cb ce }
    ensures { result ≡ join ac cb dc ce }
{
    // Lemma 6.2
    let handle = least(ac.handle, cb.ud, cb.handle, ac.ud);
    // Lemma 6.4
    let fan_a = fan(ac.ud, ac.fan_a, dc.ud);
    let fan_b = fan(cb.ud, cb.fan_b, ce.ud);
    // Lemma 6.6
    let partial_a = partial(ac.ud, ac.partial_a, dc.ud, ac.fan_a, dc.handle);
    let partial_b = partial(cb.ud, cb.partial_b, ce.ud, cb.fan_b, ce.handle);
    // Lemma 6.7
    let ud = least(partial_a, fan_b, partial_b, fan_a) + 1;
    Six {
        handle,
        fan_a,
        fan_b,
        partial_a,
        partial_b,
        ud,
    }
}

// The values of a side.
fn of_side() -> Six
    ensures { result ≡ six leaf }
{
    Six {
        handle: 0,
        fan_a: 0,
        fan_b: 0,
        partial_a: 0,
        partial_b: 0,
        ud: 0,
    }
}

// The values that stand at an edge.
pub fn values(depths: &[u8; VALUES], e: usize) -> Six
    requires { e < 2045 }
    ensures { result ≡ six_at depths.now e }
{
    let i = 6 * e;
    Six {
        handle: u16::from(depths[i]),
        fan_a: u16::from(depths[i + 1]),
        fan_b: u16::from(depths[i + 2]),
        partial_a: u16::from(depths[i + 3]),
        partial_b: u16::from(depths[i + 4]),
        ud: u16::from(depths[i + 5]),
    }
}

// Stores the values of an edge.
fn store(depths: &mut [u8; VALUES], e: usize, s: Six)
    requires place { e < 2045 }
    requires small { Small s }
    ensures { depths.new ≡ with_six depths.old e s }
{
    let i = 6 * e;
    depths[i] = s.handle as u8;
    depths[i + 1] = s.fan_a as u8;
    depths[i + 2] = s.fan_b as u8;
    depths[i + 3] = s.partial_a as u8;
    depths[i + 4] = s.partial_b as u8;
    depths[i + 5] = s.ud as u8;
}

// The place of the edge (c,b) of the triangle (a,c,b) at an edge (a,b).
fn right_edge(tree: &[u32; PLACES], e: usize) -> usize
    requires { (1 ≤ e) × (e < 2045) × (right_edge tree.now e < 2045) }
    ensures { result ≡ right_edge tree.now e }
{
    let c = (tree[e - 1] % 1024) as usize;
    tree[LAST + c] as usize
}

// No plainer as one function with the next: the place is looked up in the tree here alone, and only where there is an edge, so it would be a closure.
// The values of the edge (d,c) beyond the edge (a,c) at e, whose own are ac; those of a side if it is one.
fn beyond_left(tree: &[u32; PLACES], depths: &[u8; VALUES], e: usize, ac: Six) -> Six
    requires { 0 < ac.ud → (1 ≤ e) × (e < 2045) × (right_edge tree.now e < 2045) }
    ensures side { ac.ud ≡ 0 → result ≡ six leaf }
    ensures edge { 0 < ac.ud → result ≡ six_at depths.now (right_edge tree.now e) }
{
    if ac.ud == 0 {
        return of_side();
    }
    values(depths, right_edge(tree, e))
}

// The values of the edge (c,e) beyond the edge (c,b) at the place e, whose own are cb; those of a side if it is one.
fn beyond_right(depths: &[u8; VALUES], e: usize, cb: Six) -> Six
    requires { 0 < cb.ud → (1 ≤ e) × (e < 2045) }
    ensures side { cb.ud ≡ 0 → result ≡ six leaf }
    ensures edge { 0 < cb.ud → result ≡ six_at depths.now (e - 1) }
{
    if cb.ud == 0 {
        return of_side();
    }
    values(depths, e - 1)
}

// Here and in those below that store, the tree and the values come apart and not as `Tables`: the tree is read while the values are written.
// As one they would be no plainer: each would have to ensure that the tree stays, and each loop to keep it.
// Stores the values of an edge that is no side, from those of the edges of the pieces beyond its triangle.
fn join_at(tree: &[u32; PLACES], depths: &mut [u8; VALUES], e: usize)
    requires { (l : Tree) × (r : Tree) × PartsHeld tree.now depths.old e l r }
    ensures { (l r : Tree) → PartsHeld tree.now depths.old e l r
        → depths.new ≡ with_six depths.old e (six (node l r)) }
{
    let r = right_edge(tree, e);
    let ac = values(depths, e - 1);
    let cb = values(depths, r);
    let dc = beyond_left(tree, depths, e - 1, ac);
    let ce = beyond_right(depths, r, cb);
    store(depths, e, join(ac, cb, dc, ce));
}

// Stores the values of the edges that stand in the path from `from` on, before `upto`: from the last to the first, since each one's piece
// is a part of that of the one before.
fn ascend(
    tree: &[u32; PLACES],
    depths: &mut [u8; VALUES],
    path: &[u16; CORNERS],
    from: usize,
    upto: usize,
)
    requires room { (upto ≤ 1024) × (length depths.old ≡ 12270) }
    requires way { (e : ℕ) × (t : Tree) × Rising tree.now depths.old path.now from e t upto }
    ensures room { length depths.new ≡ 12270 }
    ensures grows { Grows tree.now depths.old depths.new }
    ensures deep { (e : ℕ) (t : Tree) → Rising tree.now depths.old path.now from e t upto
        → Deep tree.now depths.new e t }
{
    for &e in path[from..upto].iter().rev() {
        join_at(tree, depths, usize::from(e));
    }
}

// The two parts of a piece, the smaller one first.
fn by_size(t: Two) -> Two
    requires { (t.left.u ≤ t.left.v) × (t.right.u ≤ t.right.v) }
    ensures { (result ≡ t) ⊎ (result ≡ record { left = t.right; right = t.left }) }
{
    let l = t.left;
    let r = t.right;
    if r.v - r.u < l.v - l.u {
        return Two { left: r, right: l };
    }
    t
}

// Stores the values of every edge of a piece of one triangle, or of none.
fn ear(tree: &[u32; PLACES], depths: &mut [u8; VALUES], p: Root)
    requires shown { SomeTreeAt tree.now p }
    requires little { p.v ≤ p.u + 2 }
    requires room { length depths.old ≡ 12270 }
    requires sides { Leaves tree.now depths.old }
    ensures room { length depths.new ≡ 12270 }
    ensures grows { Grows tree.now depths.old depths.new }
    ensures deep { (t : Tree) → TreeAt tree.now p.e p.u p.v t → Deep tree.now depths.new p.e t }
{
    if p.u + 1 < p.v {
        join_at(tree, depths, usize::from(p.e));
    }
}

// Stores the values of every edge of the piece p. The path is written from `from` on.
pub fn levels(
    tree: &[u32; PLACES],
    depths: &mut [u8; VALUES],
    path: &mut [u16; CORNERS],
    from: usize,
    p: Root,
)
    requires shown { SomeTreeAt tree.now p }
    requires room { (from + (p.v - p.u) ≤ 1024) × (length depths.old ≡ 12270) × (length path.old ≡ 1024) }
    requires sides { Leaves tree.now depths.old }
    ensures room { (length depths.new ≡ 12270) × (length path.new ≡ 1024) }
    ensures grows { Grows tree.now depths.old depths.new }
    ensures deep { (t : Tree) → TreeAt tree.now p.e p.u p.v t → Deep tree.now depths.new p.e t }
    ensures kept { (j : ℕ) → j < from → get_or path.new j 0 ≡ get_or path.old j 0 }
{
    let mut x = p;
    let mut k = from;
    while x.u + 1 < x.v {
        path[k] = x.e;
        k += 1;
        let t = by_size(open(tree, x));
        let y = t.left;
        if y.u + 2 < y.v {
            levels(tree, depths, path, k, y);
        } else {
            ear(tree, depths, y);
        }
        x = t.right;
    }
    ascend(tree, depths, path, from, k);
}

// The tables of a part: its tree, the six values of each edge, and the whole part.
#[derive(Drop)]
pub struct Tables {
    pub tree: [u32; PLACES],
    pub depths: [u8; VALUES],
    pub root: Root,
}

impl Tables {
    // Tables that are not filled yet.
    pub fn new() -> Tables
        ensures { Blank result.tree result.depths }
    {
        Tables {
            tree: [0; PLACES],
            depths: [0; VALUES],
            root: Root { e: 0, u: 0, v: 0 },
        }
    }

    // Fills them, where they stand, from the keys of the diagonals of a part of n corners.
    pub fn fill(&mut self, keys: &[u32], n: usize)
        requires part { Triangulated n (edges_of keys.now) × (n ≤ 1024) }
        requires fresh { Blank self.old.tree self.old.depths }
        ensures { Filled n (tree_of n (edges_of keys.now)) self.new.tree self.new.depths self.new.root }
    {
        let root = build(keys, n, &mut self.tree);
        let mut path = [0u16; CORNERS];
        levels(&self.tree, &mut self.depths, &mut path, 0, root);
        self.root = root;
    }

    // The values that stand at an edge.
    pub fn values(&self, e: u16) -> Six
        requires { e < 2045 }
        ensures { result ≡ six_at self.now.depths e }
    {
        values(&self.depths, usize::from(e))
    }

    // Opens a piece that is no side.
    pub fn open(&self, p: Root) -> Two
        requires shown { SomeTreeAt self.now.tree p }
        requires apart { p.u + 1 < p.v }
        ensures { result ≡ beyond self.now.tree p }
    {
        open(&self.tree, p)
    }
}
