// Writing a part as a sheet in normal order, and the operation that sets a sheet in order.
// The definitions that the contracts cite are those of the crate sheet: specs/Sheet.antt says what a sheet is, specs/Hand.antt how the code holds a part.
#![tactic(auto)]

ghost use Rattle.std.specs.Prelude.{◌≡◌, [], ◌+◌, ◌*◌, ◌-◌, ◌≤◌, ◌<◌, length};
ghost use Rattle.std.proofs.lemmas.List.Edits.{sets};
ghost use Rattle.codec.specs.Answer.{answered, whole, written, write};
ghost use Rattle.codec.specs.Numbers.{run16};
ghost use Rattle.keys.specs.Keys.{edges_of, keys_in, angles_in};
ghost use Rattle.sheet.specs.Sheet.{more, normal_sheet, ordered, pair_bytes, map_byte};
ghost use Rattle.sheet.specs.Hand.{angles_by};
ghost use Rattle.sheet.specs.Held.{normal_length};

use codec::{Refusal, put16};
use keys::bend::{angle_in, key_in};
use keys::{DIAGONALS, high, low};
use sheet::Head;
use sheet::part::Part;
use sheet::reader::read_sheet;

// Bits 0 and 1 of the map byte: bit 0, and bit 1 if there are more than 3 corners.
fn low_bits(n: usize) -> u8
    ensures { (result ≡ 1 + more n * 2) × (result < 4) }
{
    if n > 3 { 3 } else { 1 }
}

// The map byte: these, and bit 3 if there are angles.
fn map_byte(h: Head) -> u8
    ensures { result ≡ map_byte h.n (angles_by h.angled []) }
{
    let map = low_bits(h.n);
    if h.angled { map + 8 } else { map }
}

// Writes the corners of each bend.
fn put_edges(out: &mut [u8], at: usize, bends: &[u32])
    requires { at + length bends.now * 4 ≤ length out.old }
    ensures { out.new ≡ sets out.old at (pair_bytes (edges_of (keys_in bends.now))) }
{
    for (i, &bend) in bends.iter().enumerate() {
        let k = key_in(bend);
        put16(out, at + i * 4, low(k));
        put16(out, at + i * 4 + 2, high(k));
    }
}

// Writes the angle of each bend.
fn put_angles(out: &mut [u8], at: usize, bends: &[u32])
    requires { at + length bends.now * 2 ≤ length out.old }
    ensures { out.new ≡ sets out.old at (run16 (angles_in bends.now)) }
{
    for (i, &bend) in bends.iter().enumerate() {
        put16(out, at + i * 2, angle_in(bend));
    }
}

// How long the sheet of a part is in normal order, by its head.
pub fn normal_size(h: Head) -> usize
    requires { (3 ≤ h.n) × (h.n ≤ 1024) }
    ensures { result ≡ normal_length h }
{
    let m = h.n - 3;
    if h.angled { 3 + m * 6 } else { 3 + m * 4 }
}

// The same of a part in hand.
pub fn sheet_size(part: &Part) -> usize
    ensures { result ≡ length (normal_sheet part.now) }
{
    normal_size(part.head())
}

// Writes a part in normal order into an output that is long enough.
pub fn put_sheet(part: &Part, out: &mut [u8])
    requires { length (normal_sheet part.now) ≤ length out.old }
    ensures { out.new ≡ (whole (normal_sheet part.now) out.old).bytes }
{
    let h = part.head();
    let bends = part.bends();
    out[0] = map_byte(h);
    put16(out, 1, h.n);
    put_edges(out, 3, bends);
    if h.angled {
        put_angles(out, 3 + 4 * bends.len(), bends);
    }
}

// The same if the output is long enough.
pub fn write_sheet(part: &Part, out: &mut [u8]) -> Result<usize, Refusal>
    ensures { answered result out.new ≡ written (write (normal_sheet part.now)) out.old }
{
    let size = sheet_size(part);
    if out.len() < size {
        return Err(Refusal::Room);
    }
    put_sheet(part, out);
    Ok(size)
}

// Set in order: the sheet's part as a sheet in normal order.
pub fn normalize(sheet: &[u8], out: &mut [u8]) -> Result<usize, Refusal>
    ensures { answered result out.new ≡ written (ordered sheet.now) out.old }
{
    let mut bends = [0u32; DIAGONALS];
    let mut keys = [0u32; DIAGONALS];
    let part = read_sheet(sheet, &mut bends, &mut keys)?;
    write_sheet(&part, out)
}
