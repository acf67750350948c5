// Whether two of a polygon's diagonals cross, in linear time.
// n - 3 different diagonals cross nowhere exactly if for each of them, (u,v), the farthest corner that its apex is joined to is v.
ghost use Rattle.std.specs.Prelude.{◌≡◌, true, false, ℕ, suc, ◌+◌, ◌<◌, ◌≤◌, length, get_or};
ghost use Rattle.polygon.specs.Polygon.{NoneCross};
ghost use Rattle.keys.specs.Keys.{edges_of};
ghost use Rattle.keys.specs.Tops.{Diagonals, Tops, Apexes, Reaches, Fails};

use crate::{CORNERS, DIAGONALS, high, low};

// At first each corner is joined to the next.
fn begin(top: &mut [u16])
    requires { length top.old ≡ 1024 }
    ensures { (c : ℕ) → c < 1024 → get_or top.new c 0 ≡ suc c }
{
    for (c, farthest) in top.iter_mut().enumerate() {
        *farthest = (c + 1) as u16;
    }
}

// The apex of the triangle below each diagonal, and for each corner the farthest corner that it is joined to from below.
pub fn apexes(keys: &[u32], n: usize, top: &mut [u16], apex: &mut [u16])
    requires part { Diagonals n (edges_of keys.now) }
    requires sizes { (n ≤ 1024) × (length top.old ≡ 1024) × (length keys.now ≤ length apex.old) }
    ensures tops { Tops n (edges_of keys.now) top.new }
    ensures apexes { Apexes (edges_of keys.now) apex.new }
{
    begin(top);
    for (j, &k) in keys.iter().enumerate() {
        let u = low(k);
        apex[j] = top[u];
        top[u] = high(k) as u16;
    }
}

// Whether each apex reaches as far as its diagonal's higher corner.
fn reaches(keys: &[u32], top: &[u16], apex: &[u16]) -> bool
    requires apexes { (j : ℕ) → j < length keys.now → get_or apex.now j 0 < length top.now }
    requires sizes { length keys.now ≤ length apex.now }
    ensures yes { result ≡ true → Reaches keys.now top.now apex.now }
    ensures no { result ≡ false → Fails keys.now top.now apex.now }
{
    for (&k, &c) in keys.iter().zip(apex) {
        if top[c as usize] as usize != high(k) {
            return false;
        }
    }
    true
}

// Whether two of the n - 3 diagonals cross.
pub fn crosses(keys: &[u32], n: usize) -> bool
    requires part { Diagonals n (edges_of keys.now) }
    requires sizes { (n ≤ 1024) × (length keys.now + 3 ≡ n) }
    ensures no { result ≡ false → NoneCross (edges_of keys.now) }
    ensures yes { result ≡ true → NoneCross (edges_of keys.now) → ⊥ }
{
    let mut top = [0u16; CORNERS];
    let mut apex = [0u16; DIAGONALS];
    apexes(keys, n, &mut top, &mut apex);
    !reaches(keys, &top, &apex)
}
