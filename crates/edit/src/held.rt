// The edits on a part in hand. What an edit gives is again a part in hand, or a refusal.
ghost use Rattle.std.specs.Prelude.{◌≡◌, [], ◌∷◌, ℕ, ◌<◌, ◌≤◌, IfSome, length};
ghost use Rattle.polygon.specs.Polygon.{◌—◌};
ghost use Rattle.keys.specs.Keys.{key_of, edges_of, flat_bend};
ghost use Rattle.sheet.specs.Held.{reading_of, SmallKeys};
ghost use Rattle.edit.specs.Rules.{add_ear, remove_ear, flip, rule, entering, common};
ghost use Rattle.edit.specs.Tables.{edit_of};

use crate::near::{first_common, is_ear, mark, neighbours};
use crate::shift::{Shift, renumber};
use codec::Refusal;
use keys::bend::{FLAT, bend};
use keys::change::remove;
use keys::merge::merge;
use keys::{CORNERS, DIAGONALS, key};
use sheet::Head;
use sheet::part::Part;

// An edit: add a corner on a side, take off a corner, turn the diagonal of two corners, named in either order.
#[derive(Clone, Copy, Debug, PartialEq, Eq)]
pub enum Edit {
    AddEar(usize),
    RemoveEar(usize),
    Flip(usize, usize),
}

// The bend of the diagonal that enters with a corner on side i.
fn entering_bend(n: usize, i: usize) -> u32
    requires { (i < n) × (n ≤ 1023) }
    ensures { result ≡ flat_bend (key_of (entering n i)) }
{
    if i + 1 == n {
        return bend(key(0, i), FLAT);
    }
    bend(key(i, i + 2), FLAT)
}

// Adds a corner on a side. The bends of the part after it go into the table lent, as with every edit.
fn add_to<'t>(part: &Part, side: usize, after: &'t mut [u32]) -> Result<Part<'t>, Refusal>
    requires { 1021 ≤ length after.old }
    ensures { reading_of result ≡ rule (add_ear side) part.now }
{
    let h = part.head();
    if side >= h.n {
        return Err(Refusal::OutOfRange);
    }
    if h.n == CORNERS {
        return Err(Refusal::TooManyCorners);
    }
    let bends = part.bends();
    let mut moved = [0u32; DIAGONALS];
    renumber(bends, Shift::Up(side, 1), &mut moved);
    let new = [entering_bend(h.n, side)];
    merge(&new, &moved[..bends.len()], after);
    let grown = Head {
        n: h.n + 1,
        angled: h.angled,
    };
    Ok(Part::new(grown, after))
}

// Takes off a corner.
fn remove_from<'t>(part: &Part, corner: usize, after: &'t mut [u32]) -> Result<Part<'t>, Refusal>
    requires { 1021 ≤ length after.old }
    ensures { reading_of result ≡ rule (remove_ear corner) part.now }
{
    let h = part.head();
    if corner >= h.n {
        return Err(Refusal::OutOfRange);
    }
    if h.n == 3 {
        return Err(Refusal::Triangle);
    }
    let bends = part.bends();
    let keys = part.keys(after);
    if !is_ear(keys, corner) {
        return Err(Refusal::NoEar);
    }
    let (a, b) = neighbours(h.n, corner);
    let mut rest = [0u32; DIAGONALS];
    let left = remove(bends, key(a, b), &mut rest);
    renumber(&rest[..left], Shift::Down(corner, 1), after);
    let shrunk = Head {
        n: h.n - 1,
        // A triangle has no angles.
        angled: h.angled && h.n > 4,
    };
    Ok(Part::new(shrunk, after))
}

// The key of the pair of corners that are joined to both a and b, if there are two.
fn turned_key(keys: &[u32], n: usize, a: usize, b: usize) -> Option<u32>
    requires { (3 ≤ n) × (n ≤ 1024) × (a < n) × (b < n) × SmallKeys keys.now }
    ensures pair { (x y : ℕ) → common n (edges_of keys.now) (a — b) ≡ x ∷ (y ∷ []) → result ≡ Some (key_of (x — y)) }
    ensures small { IfSome result (λ k. k < 1048576) }
{
    let mut near = [0u8; CORNERS];
    mark(keys, n, a, &mut near);
    let mut far = [0u8; CORNERS];
    mark(keys, n, b, &mut far);
    let x = first_common(&near, &far, 0, n)?;
    let y = first_common(&near, &far, x + 1, n)?;
    Some(key(x, y))
}

// Turns the diagonal (a,b), a not above b.
fn turn<'t>(part: &Part, a: usize, b: usize, after: &'t mut [u32]) -> Result<Part<'t>, Refusal>
    requires corners { (a ≤ b) × (b < part.now.n) }
    requires room { 1021 ≤ length after.old }
    ensures { reading_of result ≡ rule (flip a b) part.now }
{
    let h = part.head();
    let bends = part.bends();
    let keys = part.keys(after);
    let k = key(a, b);
    if !keys.contains(&k) {
        return Err(Refusal::LacksDiagonal);
    }
    // A diagonal has two such corners: it is a side of two triangles.
    let other = turned_key(keys, h.n, a, b).unwrap();
    let turned = [bend(other, FLAT)];
    let mut rest = [0u32; DIAGONALS];
    let left = remove(bends, k, &mut rest);
    merge(&turned, &rest[..left], after);
    Ok(Part::new(h, after))
}

// Turns the diagonal (a,b), named in either order.
fn flip_in<'t>(part: &Part, a: usize, b: usize, after: &'t mut [u32]) -> Result<Part<'t>, Refusal>
    requires { 1021 ≤ length after.old }
    ensures { reading_of result ≡ rule (flip a b) part.now }
{
    let n = part.head().n;
    if a >= n || b >= n {
        return Err(Refusal::OutOfRange);
    }
    turn(part, a.min(b), a.max(b), after)
}

// Does an edit. The bends of the part after it go into the table lent.
pub fn edit_part<'t>(part: &Part, e: Edit, after: &'t mut [u32]) -> Result<Part<'t>, Refusal>
    requires { 1021 ≤ length after.old }
    ensures { reading_of result ≡ rule (edit_of e) part.now }
{
    match e {
        Edit::AddEar(side) => add_to(part, side, after),
        Edit::RemoveEar(corner) => remove_from(part, corner, after),
        Edit::Flip(a, b) => flip_in(part, a, b, after),
    }
}
