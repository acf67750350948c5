// Cutting a part along one of its diagonals: the part on the corners a to b, and the rest, as two sheets.
// specs/Cut.antt says what parts these are, and what the operation answers; proofs/Theorems.antt is the place to start reading.
// halves.rt cuts a part that was read.
#![tactic(auto)]

ghost use Rattle.std.specs.Prelude.{◌≡◌, ◌<◌, ◌≤◌};
ghost use Rattle.polygon.specs.Polygon.{◌—◌, Valid};
ghost use Rattle.polygon.specs.Order.{lower_first};
ghost use Rattle.codec.specs.TwoOutputs.{answered_both, written_both};
ghost use Rattle.cut.specs.Cut.{cuttable, halved, cut_sheet};

use crate::halves::{halve, write_both};
use codec::Refusal;
use keys::{DIAGONALS, key};
use sheet::part::Part;
use sheet::reader::read_sheet;

pub mod halves;

// Cuts a part at (a,b), a not above b.
fn cut_at(
    part: &Part,
    a: usize,
    b: usize,
    inner: &mut [u8],
    rest: &mut [u8],
) -> Result<(usize, usize), Refusal>
    requires corners { (a ≤ b) × (b < part.now.n) }
    requires part { Valid part.now }
    ensures { answered_both result inner.new rest.new
        ≡ written_both (halved (a — b) (cuttable a b part.now)) inner.old rest.old }
{
    let mut inside = [0u32; DIAGONALS];
    let keys = part.keys(&mut inside);
    if !keys.contains(&key(a, b)) {
        return Err(Refusal::LacksDiagonal);
    }
    let mut outside = [0u32; DIAGONALS];
    let (one, other) = halve(part, a, b, &mut inside, &mut outside);
    write_both(&one, &other, inner, rest)
}

// Cuts a part between a and b, named in either order.
fn cut_part(
    part: &Part,
    a: usize,
    b: usize,
    inner: &mut [u8],
    rest: &mut [u8],
) -> Result<(usize, usize), Refusal>
    ensures { answered_both result inner.new rest.new
        ≡ written_both (halved (lower_first (a, b)) (cuttable a b part.now)) inner.old rest.old }
{
    let n = part.head().n;
    if a >= n || b >= n {
        return Err(Refusal::OutOfRange);
    }
    cut_at(part, a.min(b), a.max(b), inner, rest)
}

// Cut: the part on the corners a to b to one output, the rest to the other, each as a sheet in normal order.
pub fn cut(
    sheet: &[u8],
    a: usize,
    b: usize,
    inner: &mut [u8],
    rest: &mut [u8],
) -> Result<(usize, usize), Refusal>
    ensures { answered_both result inner.new rest.new
        ≡ written_both (cut_sheet sheet.now a b) inner.old rest.old }
{
    let mut bends = [0u32; DIAGONALS];
    let mut keys = [0u32; DIAGONALS];
    let part = read_sheet(sheet, &mut bends, &mut keys)?;
    cut_part(&part, a, b, inner, rest)
}
