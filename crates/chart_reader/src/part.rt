// The part that the strokes show: all sides, and n - 3 diagonals that do not cross.
ghost use Rattle.std.specs.Prelude.{◌≡◌, true, false, ◌+◌, ◌-◌, ◌<◌, ◌≤◌, length, take};
ghost use Rattle.lists.specs.Lists.{keep};
ghost use Rattle.polygon.specs.Polygon.{Diagonal};
ghost use Rattle.polygon.specs.Order.{diagonal?};
ghost use Rattle.keys.specs.Keys.{edge_of, edges_of};
ghost use Rattle.chart_reader.specs.Rules.{PartOf};
ghost use Rattle.chart_reader.specs.Held.{EdgesOf};

use keys::cross::crosses;
use keys::{high, low};

// Whether a key is that of a diagonal of n corners.
pub fn is_diagonal(k: u32, n: usize) -> bool
    requires { n ≤ 1024 }
    ensures yes { result ≡ true → Diagonal n (edge_of k) }
    ensures no { result ≡ false → Diagonal n (edge_of k) → ⊥ }
{
    let a = low(k);
    let b = high(k);
    a + 2 <= b && b + 2 <= a + n && b < n
}

// Copies the keys of the diagonals, and says how many there are.
fn diagonals(edges: &[u32], n: usize, keys: &mut [u32]) -> usize
    requires { (length edges.now ≤ length keys.old) × (n ≤ 1024) }
    ensures within { result ≤ length edges.now }
    ensures kept { edges_of (take result keys.new) ≡ keep (diagonal? n) (edges_of edges.now) }
{
    let mut m = 0;
    for &k in edges {
        if is_diagonal(k, n) {
            keys[m] = k;
            m += 1;
        }
    }
    m
}

// Whether 2n - 3 ascending edges are all sides and diagonals that do not cross, with the keys of the diagonals in the table if they are.
pub fn part(edges: &[u32], n: usize, keys: &mut [u32]) -> bool
    requires { EdgesOf n (edges_of edges.now) × (n ≤ 1024) × (length edges.now ≤ length keys.old) }
    ensures yes { result ≡ true → PartOf n (edges_of edges.now)
        × (edges_of (take (n - 3) keys.new) ≡ keep (diagonal? n) (edges_of edges.now)) }
    ensures no { result ≡ false → PartOf n (edges_of edges.now) → ⊥ }
{
    let m = diagonals(edges, n, keys);
    if m + 3 != n {
        return false;
    }
    !crosses(&keys[..m], n)
}
