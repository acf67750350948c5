// Joining two parts along a seam: the second part's root edge is laid on a side of the first.
// specs/Join.antt says what part that gives, and what the operation answers; proofs/Theorems.antt is the place to start reading.
// halves.rt joins two parts that were read.
#![tactic(auto)]

ghost use Rattle.std.specs.Prelude.{◌≡◌};
ghost use Rattle.codec.specs.Answer.{answered, written};
ghost use Rattle.seam.specs.Join.{joined_sheets};

use crate::halves::glue;
use codec::Refusal;
use keys::DIAGONALS;
use sheet::reader::read_sheet;
use sheet_writer::write_sheet;

pub mod halves;

// Join: the second sheet's part on a side of the first's, as a sheet in normal order.
pub fn join(first: &[u8], second: &[u8], side: usize, out: &mut [u8]) -> Result<usize, Refusal>
    ensures { answered result out.new ≡ written (joined_sheets first.now second.now side) out.old }
{
    let mut of_first = [0u32; DIAGONALS];
    let mut of_second = [0u32; DIAGONALS];
    // Until the parts are joined, the keys that the reading leaves.
    let mut glued = [0u32; DIAGONALS];
    let one = read_sheet(first, &mut of_first, &mut glued)?;
    let other = read_sheet(second, &mut of_second, &mut glued)?;
    let joined = glue(&one, &other, side, &mut glued)?;
    write_sheet(&joined, out)
}
