// Renumbering the corners of a table of bends: those above a corner go up or down, and each bend keeps its angle.
ghost use Rattle.std.specs.Prelude.{◌≡◌, map, ◌<◌, ◌≤◌, length, take};
ghost use Rattle.edit.specs.Tables.{moved, moved_bend, Movable, AllMovable};

use keys::bend::{bend, code_in, key_in};
use keys::{high, key, low};

// The corners above `at` go up, or down, by so many: Up(at, by), Down(at, by).
// An enum and no closure: `moved`, `AllMovable` and `moved_bend` of specs/Tables, which the contracts here, in seam and in cut cite, are by it.
#[derive(Clone, Copy, Debug, PartialEq, Eq)]
pub enum Shift {
    Up(usize, usize),
    Down(usize, usize),
}

// A corner renumbered.
fn moved(shift: Shift, x: usize) -> usize
    requires { Movable shift x }
    ensures { (result ≡ moved shift x) × (result < 1024) }
{
    match shift {
        Shift::Up(at, by) => { if x > at { x + by } else { x } }
        Shift::Down(at, by) => { if x > at { x - by } else { x } }
    }
}

// Puts the bends with their corners renumbered at the front of `out`.
pub fn renumber(bends: &[u32], shift: Shift, out: &mut [u32])
    requires { (length bends.now ≤ length out.old) × AllMovable shift bends.now }
    ensures { take (length bends.now) out.new ≡ map (moved_bend shift) bends.now }
{
    for (j, &old) in bends.iter().enumerate() {
        let k = key_in(old);
        let a = moved(shift, low(k));
        let b = moved(shift, high(k));
        out[j] = bend(key(a, b), code_in(old));
    }
}
