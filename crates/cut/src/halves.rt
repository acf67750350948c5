// Cutting a part: its bends parted in two tables, each half renumbered, and both written.
ghost use Rattle.std.specs.Prelude.{◌≡◌, true, false, ◌+◌, ◌-◌, ◌≤◌, length, take};
ghost use Rattle.lists.specs.Lists.{Mem};
ghost use Rattle.polygon.specs.Polygon.{◌—◌};
ghost use Rattle.codec.specs.TwoOutputs.{answered_both, write_both, written_both};
ghost use Rattle.keys.specs.Keys.{edge_of};
ghost use Rattle.sheet.specs.Sheet.{normal_sheet};
ghost use Rattle.cut.specs.Cut.{Beneath, inner_part, rest_part};
ghost use Rattle.cut.specs.Tables.{inner_bends, rest_bends, head_on};

use codec::Refusal;
use edit::shift::{Shift, renumber};
use keys::bend::key_in;
use keys::change::remove;
use keys::{DIAGONALS, high, key, low};
use sheet::Head;
use sheet::part::Part;
use sheet_writer::{put_sheet, sheet_size};

// Whether an edge joins two of the corners a to b.
fn beneath(k: u32, a: usize, b: usize) -> bool
    ensures yes { result ≡ true → Beneath (a — b) (edge_of k) }
    ensures no { result ≡ false → Beneath (a — b) (edge_of k) → ⊥ }
{
    low(k) >= a && high(k) <= b
}

// Puts the bends of the diagonals on the corners a to b at the front of `inside`, the others at the front of `outside`, and says how many the first are.
fn split(bends: &[u32], a: usize, b: usize, inside: &mut [u32], outside: &mut [u32]) -> usize
    requires { (length bends.now ≤ length inside.old) × (length bends.now ≤ length outside.old) }
    ensures first { (take result inside.new ≡ inner_bends (a — b) bends.now)
        × (result ≡ length (inner_bends (a — b) bends.now)) }
    ensures second { (take (length bends.now - result) outside.new ≡ rest_bends (a — b) bends.now)
        × (result + length (rest_bends (a — b) bends.now) ≡ length bends.now) }
{
    // Counted by hand, since std's `partition` makes two collections: no heap.
    let mut i = 0;
    for (j, &bend) in bends.iter().enumerate() {
        if beneath(key_in(bend), a, b) {
            inside[i] = bend;
            i += 1;
        } else {
            outside[j - i] = bend;
        }
    }
    i
}

// The head of a half of so many corners: a triangle has no angles.
pub fn head_on(h: Head, n: usize) -> Head
    ensures { result ≡ head_on h n }
{
    Head {
        n,
        angled: h.angled && n > 3,
    }
}

// Cuts a part at its diagonal (a,b): the inner part, its bends in one table lent, and the rest, in the other.
pub fn halve<'i, 'o>(
    part: &Part,
    a: usize,
    b: usize,
    inside: &'i mut [u32],
    outside: &'o mut [u32],
) -> (Part<'i>, Part<'o>)
    requires part { Mem (a — b) part.now.ds }
    requires sizes { (1021 ≤ length inside.old) × (1021 ≤ length outside.old) }
    ensures inner { result.0 ≡ inner_part (a — b) part.now }
    ensures rest { result.1 ≡ rest_part (a — b) part.now }
{
    let h = part.head();
    let bends = part.bends();
    let mut others = [0u32; DIAGONALS];
    let left = remove(bends, key(a, b), &mut others);
    let mut on = [0u32; DIAGONALS];
    let mut off = [0u32; DIAGONALS];
    let i = split(&others[..left], a, b, &mut on, &mut off);
    renumber(&on[..i], Shift::Down(0, a), inside);
    renumber(&off[..left - i], Shift::Down(a, b - a - 1), outside);
    let inner = Part::new(head_on(h, b - a + 1), inside);
    let rest = Part::new(head_on(h, h.n - (b - a - 1)), outside);
    (inner, rest)
}

// Writes two parts, each to its output, if both outputs are long enough.
pub fn write_both(
    one: &Part,
    other: &Part,
    inner: &mut [u8],
    rest: &mut [u8],
) -> Result<(usize, usize), Refusal>
    ensures { answered_both result inner.new rest.new
        ≡ written_both (write_both (normal_sheet one.now) (normal_sheet other.now)) inner.old rest.old }
{
    let first = sheet_size(one);
    if inner.len() < first {
        return Err(Refusal::Room);
    }
    let second = sheet_size(other);
    if rest.len() < second {
        return Err(Refusal::Room);
    }
    put_sheet(one, inner);
    put_sheet(other, rest);
    Ok((first, second))
}
