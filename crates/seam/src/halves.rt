// The two halves of a joined part: the bends of each, and joining both in a third table.
ghost use Rattle.std.specs.Prelude.{◌≡◌, map, ◌+◌, ◌-◌, ◌<◌, ◌≤◌, length, take};
ghost use Rattle.polygon.specs.Polygon.{Valid};
ghost use Rattle.keys.specs.Keys.{keys_in, flat_bend};
ghost use Rattle.keys.specs.Sort.{sort_keys};
ghost use Rattle.sheet.specs.Hand.{head_of};
ghost use Rattle.sheet.specs.Held.{reading_of};
ghost use Rattle.edit.specs.Tables.{whole};
ghost use Rattle.seam.specs.Join.{join_rule};
ghost use Rattle.seam.specs.Halves.{Half, Joins, raised_bend, Raisable, laid_bends, glued_bends};

use codec::Refusal;
use edit::shift::{Shift, renumber};
use keys::bend::{FLAT, bend, key_in};
use keys::merge::merge;
use keys::{CORNERS, DIAGONALS, key};
use sheet::Head;
use sheet::part::Part;

// What a bend grows by when both its corners go up by one: 1,025 in its key.
const FURTHER: u32 = 4198400;

// Puts the bends, each with the angle 0, at the front of `out`.
fn flatten(bends: &[u32], out: &mut [u32])
    requires { length bends.now ≤ length out.old }
    ensures { take (length bends.now) out.new ≡ map flat_bend (keys_in bends.now) }
{
    for (j, &old) in bends.iter().enumerate() {
        out[j] = bend(key_in(old), FLAT);
    }
}

// The bends of a half at the start of a table. If it has no angles, each bend gets the angle 0: the other half may have some.
pub fn half_bends(part: &Part) -> [u32; DIAGONALS]
    ensures { Half part.now (head_of part.now) (take (part.now.n - 3) result) }
{
    let bends = part.bends();
    let mut half = [0u32; DIAGONALS];
    if part.head().angled {
        half[..bends.len()].copy_from_slice(bends);
    } else {
        flatten(bends, &mut half);
    }
    half
}

// Puts the bends with both corners so many further on at the front of `out`; their angles stay.
// Beside edit's `renumber`: here all corners move, so that a bend is raised by one addition.
fn raise(bends: &[u32], by: usize, out: &mut [u32])
    requires { (length bends.now ≤ length out.old) × (by < 1024) × Raisable by bends.now }
    ensures { take (length bends.now) out.new ≡ map (raised_bend by) bends.now }
{
    let step = by as u32 * FURTHER;
    for (j, &old) in bends.iter().enumerate() {
        out[j] = old + step;
    }
}

// The bends of the second half under their new numbers, and the seam's, in order at the front of `out`; `spare` is overwritten.
fn lay(g: Head, second: &[u32], side: usize, spare: &mut [u32], out: &mut [u32])
    requires part { Valid (whole g second.now) }
    requires sizes { (side + g.n ≤ 1024) × (g.n ≤ 1023) × (1021 ≤ length out.old) × (1021 ≤ length spare.old) }
    ensures { take (g.n - 2) out.new ≡ sort_keys (laid_bends side g.n second.now) }
{
    raise(second, side, spare);
    let seam = [bend(key(side, side + g.n - 1), FLAT)];
    merge(&seam, &spare[..second.len()], out);
}

// The bends of both halves under their new numbers, and the seam's, in order at the front of `out`.
fn sew(h: Head, first: &[u32], g: Head, second: &[u32], side: usize, out: &mut [u32])
    requires halves { Valid (whole h first.now) × Valid (whole g second.now) }
    requires sizes { Joins side h.n g.n × (1021 ≤ length out.old) }
    ensures { take (h.n + g.n - 5) out.new ≡ sort_keys (glued_bends side g.n first.now second.now) }
{
    let mut laid = [0u32; DIAGONALS];
    lay(g, second, side, out, &mut laid);
    let mut moved = [0u32; DIAGONALS];
    renumber(first, Shift::Up(side, g.n - 2), &mut moved);
    merge(&moved[..first.len()], &laid[..g.n - 2], out);
}

// Joins the second part to the first along a side of the first. The bends of the joined part go into the table lent.
pub fn glue<'t>(
    first: &Part,
    second: &Part,
    side: usize,
    glued: &'t mut [u32],
) -> Result<Part<'t>, Refusal>
    requires { 1021 ≤ length glued.old }
    ensures { reading_of result ≡ join_rule side first.now second.now }
{
    let h = first.head();
    let g = second.head();
    if side >= h.n - 1 {
        return Err(Refusal::OutOfRange);
    }
    if h.n + g.n > CORNERS + 2 {
        return Err(Refusal::TooManyCorners);
    }
    let of_first = half_bends(first);
    let of_second = half_bends(second);
    sew(
        h,
        &of_first[..h.n - 3],
        g,
        &of_second[..g.n - 3],
        side,
        glued,
    );
    let joined = Head {
        n: h.n + g.n - 2,
        angled: h.angled || g.angled,
    };
    Ok(Part::new(joined, glued))
}
