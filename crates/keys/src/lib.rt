// Diagonals as keys in the code: the edge (a,b), lower corner first, is the number a * 1,024 + b, so that keys ascend as edges do.
// A bend is such a number with its angle beside it (bend.rt).
// sort.rt puts bends in order, merge.rt merges ascending tables, cross.rt finds out whether two diagonals cross, change.rt takes a bend out.
#![tactic(auto)]

ghost use Rattle.std.specs.Prelude.{◌≡◌, ◌+◌, ◌*◌, ◌/◌, ◌%◌, ◌<◌};
ghost use Rattle.keys.specs.Keys.{key_of};
ghost use Rattle.polygon.specs.Polygon.{◌—◌};

pub mod bend;
pub mod change;
pub mod cross;
pub mod merge;
pub mod sort;

// How many corners a part has at most, how many diagonals, and how many edges: sides and diagonals.
pub const CORNERS: usize = 1024;

pub const DIAGONALS: usize = 1021;

pub const EDGES: usize = 2045;

// The key of the edge (a,b).
pub fn key(a: usize, b: usize) -> u32
    requires { (a < 1024) × (b < 1024) }
    ensures { result ≡ key_of (a — b) }
{
    (a * CORNERS + b) as u32
}

// The lower corner of a key's edge.
pub fn low(k: u32) -> usize
    ensures { result ≡ k / 1024 }
{
    (k / 1024) as usize
}

// The higher corner of a key's edge.
pub fn high(k: u32) -> usize
    ensures { (result ≡ k % 1024) × (result < 1024) }
{
    (k % 1024) as usize
}
