// A table of bends without a key's.
ghost use Rattle.std.specs.Prelude.{◌≡◌, ◌≤◌, length, take};
ghost use Rattle.keys.specs.Change.{remove_key};

use crate::bend::key_in;

// Puts the bends with another key than k at the front of `out`, and says how many they are.
pub fn remove(bends: &[u32], k: u32, out: &mut [u32]) -> usize
    requires { length bends.now ≤ length out.old }
    ensures { (take result out.new ≡ remove_key k bends.now) × (result ≡ length (remove_key k bends.now)) }
{
    let mut left = 0;
    for &b in bends {
        if key_in(b) != k {
            out[left] = b;
            left += 1;
        }
    }
    left
}
