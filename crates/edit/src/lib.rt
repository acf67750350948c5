// The edits of a part: add a corner, take one off, turn a diagonal, and lists of them.
// specs/ has the rules, the plain part and the operations; proofs/Theorems.antt is the place to start reading.
// shift.rt renumbers corners, near.rt finds the corners next to a corner, held.rt edits a part that was read.
#![tactic(auto)]

ghost use Rattle.std.specs.Prelude.{◌≡◌};
ghost use Rattle.codec.specs.Answer.{answered, written};
ghost use Rattle.edit.specs.Rules.{add_ear, remove_ear, flip};
ghost use Rattle.edit.specs.Calls.{edited};
ghost use Rattle.edit.specs.Tables.{edit_of};

use crate::held::{Edit, edit_part};
use codec::Refusal;
use keys::DIAGONALS;
use sheet::reader::read_sheet;
use sheet_writer::write_sheet;

pub mod held;
pub mod near;
pub mod shift;

// The sheet's part after an edit, as a sheet in normal order.
pub fn edit(sheet: &[u8], e: Edit, out: &mut [u8]) -> Result<usize, Refusal>
    ensures { answered result out.new ≡ written (edited (edit_of e) sheet.now) out.old }
{
    let mut before = [0u32; DIAGONALS];
    // Until the edit, the keys that the reading leaves.
    let mut after = [0u32; DIAGONALS];
    let part = read_sheet(sheet, &mut before, &mut after)?;
    let edited = edit_part(&part, e, &mut after)?;
    write_sheet(&edited, out)
}

// Add a corner on a side.
pub fn add_ear(sheet: &[u8], side: usize, out: &mut [u8]) -> Result<usize, Refusal>
    ensures { answered result out.new ≡ written (edited (add_ear side) sheet.now) out.old }
{
    edit(sheet, Edit::AddEar(side), out)
}

// Take off a corner.
pub fn remove_ear(sheet: &[u8], corner: usize, out: &mut [u8]) -> Result<usize, Refusal>
    ensures { answered result out.new ≡ written (edited (remove_ear corner) sheet.now) out.old }
{
    edit(sheet, Edit::RemoveEar(corner), out)
}

// Turn the diagonal (a,b), named in either order.
pub fn flip(sheet: &[u8], a: usize, b: usize, out: &mut [u8]) -> Result<usize, Refusal>
    ensures { answered result out.new ≡ written (edited (flip a b) sheet.now) out.old }
{
    edit(sheet, Edit::Flip(a, b), out)
}
