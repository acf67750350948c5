// All edges of a part, ascending, as keys. A diagonal's place follows from its lower corner; what is left free then is filled with the sides and the root edge.
ghost use Rattle.std.specs.Prelude.{◌≡◌, ℕ, ◌+◌, ◌*◌, ◌-◌, ◌<◌, ◌≤◌, length, take, get_or};
ghost use Rattle.polygon.specs.Polygon.{Triangulated};
ghost use Rattle.polygon.specs.Edges.{edges};
ghost use Rattle.polygon.specs.Tree.{tree_of};
ghost use Rattle.keys.specs.Keys.{edges_of};
ghost use Rattle.keys.specs.Sort.{merge};
ghost use Rattle.tree.specs.Outline.{side, outline, outline_before, Stood};

use keys::low;

// The i-th edge around n corners.
fn outline_at(n: usize, i: usize) -> u32
    requires { (1 ≤ n) × (n ≤ 1024) × (i < 2048) }
    ensures root { i ≡ 1 → result ≡ n - 1 }
    ensures side { ¬ (i ≡ 1) → result ≡ side (i - 1) }
{
    match i {
        0 => 1,
        1 => (n - 1) as u32,
        _ => ((i - 1) * 1025 + 1) as u32,
    }
}

// How many of these come before a diagonal with the lower corner a.
fn outline_before(a: usize) -> usize
    requires { a < 1024 }
    ensures { result ≡ outline_before a }
{
    if a == 0 { 1 } else { a + 2 }
}

// Stores each diagonal at its place.
fn place_diagonals(keys: &[u32], n: usize, listed: &mut [u32])
    requires part { Triangulated n (edges_of keys.now) × (n ≤ 1024) }
    requires room { 2 * n - 3 ≤ length listed.old }
    requires fresh { (i : ℕ) → get_or listed.old i 0 ≡ 0 }
    ensures { Stood (length keys.now) keys.now listed.new }
{
    for (j, &k) in keys.iter().enumerate() {
        listed[j + outline_before(low(k))] = k;
    }
}

// Stores the edges around n corners at the places that the diagonals leave free.
fn place_outline(keys: &[u32], n: usize, listed: &mut [u32])
    requires part { Triangulated n (edges_of keys.now) × (n ≤ 1024) }
    requires room { 2 * n - 3 ≤ length listed.old }
    requires stood { Stood (length keys.now) keys.now listed.old }
    ensures merged { take (2 * n - 3) listed.new ≡ merge (outline n) keys.now }
    ensures rest { (j : ℕ) → 2 * n - 3 ≤ j → get_or listed.new j 0 ≡ 0 }
{
    let mut i = 0;
    for place in listed[..n + keys.len()].iter_mut() {
        // 0 stays for a free place: the clauses fresh and rest of list_edges say so of the table, and no key is 0.
        if *place == 0 {
            *place = outline_at(n, i);
            i += 1;
        }
    }
}

// The sides, the root edge and the diagonals of n corners, in a table of zeros.
pub fn list_edges(keys: &[u32], n: usize, listed: &mut [u32])
    requires part { Triangulated n (edges_of keys.now) × (n ≤ 1024) }
    requires room { 2 * n - 3 ≤ length listed.old }
    requires fresh { (i : ℕ) → get_or listed.old i 0 ≡ 0 }
    ensures edges { edges_of (take (2 * n - 3) listed.new) ≡ edges 0 (tree_of n (edges_of keys.now)) }
    ensures rest { (j : ℕ) → 2 * n - 3 ≤ j → get_or listed.new j 0 ≡ 0 }
{
    place_diagonals(keys, n, listed);
    place_outline(keys, n, listed);
}
