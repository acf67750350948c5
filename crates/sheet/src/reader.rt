// Reading a sheet: the tests of document 01 in their order, and those of the angles.
ghost use Rattle.std.specs.Prelude.{◌≡◌, true, false, ◌+◌, ◌*◌, ◌-◌, ◌%◌, ◌<◌, ◌≤◌, length};
ghost use Rattle.lists.specs.Lists.{All};
ghost use Rattle.polygon.specs.Polygon.{◌—◌, Diagonal};
ghost use Rattle.codec.specs.Numbers.{get16};
ghost use Rattle.keys.specs.Keys.{code_of};
ghost use Rattle.sheet.specs.Sheet.{read_sheet, sheet_length, pairs, bit0, bit1, bit2, bit3, more};
ghost use Rattle.sheet.specs.Held.{reading_of, KeysSay, HeadOf, HeadSays, KeyIs, pair_at, BendsRead, CodeFits, CodesAllowed};

use crate::Head;
use crate::part::Part;
use codec::{Refusal, get16};
use keys::bend::{bend, code_in, code_of};
use keys::cross::crosses;
use keys::sort::order;
use keys::{CORNERS, key};

// Whether bit 1 of the map stands exactly when there are more than 3 corners.
fn agrees(map: u8, n: usize) -> bool
    ensures yes { result ≡ true → bit1 map ≡ more n }
    ensures no { result ≡ false → bit1 map ≡ more n → ⊥ }
{
    if n > 3 {
        map / 2 % 2 == 1
    } else {
        map / 2 % 2 == 0
    }
}

// How many fields there are behind the corner count and the pairs: as many as bits stand, less those two.
fn behind(map: u8) -> usize
    requires { (map < 16) × (map % 2 ≡ 1) }
    ensures { result ≡ bit2 map + bit3 map }
{
    u8::count_ones(map) as usize - 1 - (map / 2 % 2) as usize
}

// How long a sheet with this map is, for n corners: if bit 3 stands, the last field has two bytes a diagonal.
fn length_for(map: u8, n: usize) -> usize
    requires { (map < 16) × (bit0 map ≡ 1) × (3 ≤ n) × (n ≤ 1024) × (bit1 map ≡ more n) }
    ensures { result ≡ sheet_length map n }
{
    let fields = behind(map);
    let end = 3 + 4 * (n - 3);
    if map >= 8 {
        return end + 4 * (fields - 1) + 2 * (n - 3);
    }
    end + 4 * fields
}

// The tests up to the sheet's exact length.
fn read_head(sheet: &[u8]) -> Result<Head, Refusal>
    ensures { HeadSays sheet.now result }
{
    let size = sheet.len();
    if size == 0 {
        return Err(Refusal::MapByte);
    }
    let map = sheet[0];
    if map % 2 == 0 {
        return Err(Refusal::MapByte);
    }
    if map >= 16 {
        return Err(Refusal::MapByte);
    }
    if size < 3 {
        return Err(Refusal::SheetLength);
    }
    let n = get16(sheet, 1);
    if n < 3 {
        return Err(Refusal::CornerCount);
    }
    if n > CORNERS {
        return Err(Refusal::CornerCount);
    }
    if !agrees(map, n) {
        return Err(Refusal::PairBit);
    }
    if size != length_for(map, n) {
        return Err(Refusal::SheetLength);
    }
    Ok(Head {
        n,
        angled: map >= 8,
    })
}

// The key of the edge (a,b), a below b, if it is a diagonal of n corners.
fn edge_key(a: usize, b: usize, n: usize) -> Option<u32>
    requires { (a < 65536) × (b < 65536) × (n ≤ 1024) }
    ensures { KeyIs n (a — b) result }
{
    if b >= n || b < a + 2 || a + n < b + 2 {
        return None;
    }
    Some(key(a, b))
}

// The key of the pair at `at`, either corner first, if it is a diagonal.
fn pair_key(sheet: &[u8], at: usize, n: usize) -> Option<u32>
    requires { (at + 4 ≤ length sheet.now) × (n ≤ 1024) }
    ensures { KeyIs n (pair_at sheet.now at) result }
{
    let a = get16(sheet, at);
    let b = get16(sheet, at + 2);
    if a < b {
        edge_key(a, b, n)
    } else {
        edge_key(b, a, n)
    }
}

// The twelve bits of the angle at `at`, if there are angles; else 0.
fn angle_code(sheet: &[u8], angled: bool, at: usize) -> u32
    requires { at + 2 ≤ length sheet.now }
    ensures { (angled ≡ true → result ≡ code_of (get16 sheet.now at)) × (result < 4096) }
{
    if angled {
        return code_of(get16(sheet, at));
    }
    0
}

// Reads the pairs, each with its angle beside it, if all are diagonals. The angles, if there are any, are the last bytes of the sheet.
fn read_bends(sheet: &[u8], n: usize, angled: bool, bends: &mut [u32]) -> bool
    requires { (3 ≤ n) × (n ≤ 1024) × (3 + 4 * (n - 3) ≤ length sheet.now) × (1021 ≤ length bends.old) }
    ensures yes { result ≡ true → BendsRead sheet.now n angled bends.new }
    ensures no { result ≡ false → All (Diagonal n) (pairs sheet.now 3 (n - 3)) → ⊥ }
{
    let m = n - 3;
    for i in 0..m {
        let Some(k) = pair_key(sheet, 3 + 4 * i, n) else {
            return false;
        };
        bends[i] = bend(k, angle_code(sheet, angled, sheet.len() - 2 * m + 2 * i));
    }
    true
}

// Whether each of the bends has an angle in range.
fn in_range(bends: &[u32]) -> bool
    ensures yes { result ≡ true → All CodeFits bends.now }
    ensures no { result ≡ false → All CodeFits bends.now → ⊥ }
{
    bends.iter().all(|&bend| code_in(bend) <= 3600)
}

// Whether the angles are allowed: there are none, or there are more than 3 corners and each is in range.
fn allowed(h: Head, bends: &[u32]) -> bool
    requires { 3 ≤ h.n }
    ensures yes { result ≡ true → CodesAllowed h bends.now }
    ensures no { result ≡ false → CodesAllowed h bends.now → ⊥ }
{
    if !h.angled {
        return true;
    }
    if h.n == 3 {
        return false;
    }
    in_range(bends)
}

// The tests of the pairs and the angles of a sheet whose head was read. The angles are looked at before they move, and tested last.
fn read_rest<'t>(
    sheet: &[u8],
    h: Head,
    bends: &'t mut [u32],
    keys: &mut [u32],
) -> Result<Part<'t>, Refusal>
    requires head { HeadOf sheet.now h }
    requires sizes { (1021 ≤ length bends.old) × (1021 ≤ length keys.old) }
    ensures part { reading_of result ≡ read_sheet sheet.now }
    ensures keys { KeysSay result keys.new }
{
    let n = h.n;
    let m = n - 3;
    if !read_bends(sheet, n, h.angled, bends) {
        return Err(Refusal::NoDiagonal);
    }
    let fits = allowed(h, &bends[..m]);
    if !order(&mut bends[..m], &mut keys[..m]) {
        return Err(Refusal::RepeatedPair);
    }
    if crosses(&keys[..m], n) {
        return Err(Refusal::Crossing);
    }
    if !fits {
        return Err(Refusal::Angles);
    }
    Ok(Part::new(h, bends))
}

// Reads a sheet: the part that it holds, its bends in one table lent and their keys in another, or a refusal.
pub fn read_sheet<'t>(
    sheet: &[u8],
    bends: &'t mut [u32],
    keys: &mut [u32],
) -> Result<Part<'t>, Refusal>
    requires { (1021 ≤ length bends.old) × (1021 ≤ length keys.old) }
    ensures part { reading_of result ≡ read_sheet sheet.now }
    ensures keys { KeysSay result keys.new }
{
    let h = read_head(sheet)?;
    read_rest(sheet, h, bends, keys)
}
