// The corners next to a corner, along its sides and along its diagonals.
ghost use Rattle.std.specs.Prelude.{◌≡◌, true, false, ℕ, ◌+◌, ◌<◌, ◌≤◌, length, get_or};
ghost use Rattle.lists.specs.Lists.{All};
ghost use Rattle.keys.specs.Keys.{edge_of, edges_of};
ghost use Rattle.sheet.specs.Held.{SmallKeys};
ghost use Rattle.edit.specs.Rules.{neighbours, Away};
ghost use Rattle.edit.specs.Tables.{Near, Common, OtherEnd};

use keys::{high, low};

// The two corners to which the sides of k lead, the lower one first.
pub fn neighbours(n: usize, k: usize) -> (usize, usize)
    requires { (3 ≤ n) × (n ≤ 1024) × (k < n) }
    ensures { (result ≡ neighbours n k) × (result.0 < n) × (result.1 < n) }
{
    if k == 0 {
        (1, n - 1)
    } else if k + 1 == n {
        (0, k - 1)
    } else {
        (k - 1, k + 1)
    }
}

// Whether no diagonal ends at k.
pub fn is_ear(keys: &[u32], k: usize) -> bool
    ensures yes { result ≡ true → All (Away k) (edges_of keys.now) }
    ensures no { result ≡ false → All (Away k) (edges_of keys.now) → ⊥ }
{
    keys.iter().all(|&key| low(key) != k && high(key) != k)
}

// The other end of a key's edge, if one end is c.
fn other_end(k: u32, c: usize) -> Option<usize>
    requires { k < 1048576 }
    ensures { OtherEnd (edge_of k) c result }
{
    if low(k) == c {
        Some(high(k))
    } else if high(k) == c {
        Some(low(k))
    } else {
        None
    }
}

// Marks by 1 the corners that a side or a diagonal joins to c.
pub fn mark(keys: &[u32], n: usize, c: usize, near: &mut [u8])
    requires sizes { (3 ≤ n) × (n ≤ 1024) × (c < n) × (1024 ≤ length near.old) × SmallKeys keys.now }
    requires fresh { (x : ℕ) → get_or near.old x 0 ≡ 0 }
    ensures { Near n (edges_of keys.now) c near.new }
{
    let (a, b) = neighbours(n, c);
    near[a] = 1;
    near[b] = 1;
    for &key in keys {
        // An edge that does not end at c marks a neighbour again: so no place is chosen by a jump.
        near[other_end(key, c).unwrap_or(a)] = 1;
    }
}

// The first corner from `from` on, and below n, that is marked by 1 in both tables.
pub fn first_common(p: &[u8], q: &[u8], from: usize, n: usize) -> Option<usize>
    requires { (n ≤ length p.now) × (n ≤ length q.now) × (from ≤ n) }
    ensures { Common p.now q.now from n result }
{
    (from..n).find(|&x| p[x] == 1 && q[x] == 1)
}
