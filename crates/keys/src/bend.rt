// A diagonal with its angle beside it in one number: the key times 4,096, and the angle plus 1,800 in the lowest twelve bits. So bends ascend as their keys do.
ghost use Rattle.std.specs.Prelude.{◌≡◌, ◌+◌, ◌*◌, ◌<◌, ◌%◌, length};
ghost use Rattle.keys.specs.Keys.{key_in, keys_in, angle_in, code_of};

// The twelve bits of the angle 0.
pub const FLAT: u32 = 1800;

// The bend of a key and the twelve bits of its angle.
pub fn bend(k: u32, code: u32) -> u32
    requires { (k < 1048576) × (code < 4096) }
    ensures { result ≡ k * 4096 + code }
{
    k * 4096 + code
}

// The key of a bend.
pub fn key_in(b: u32) -> u32
    ensures { (result ≡ key_in b) × (result < 1048576) }
{
    b / 4096
}

// The twelve bits of a bend's angle.
pub fn code_in(b: u32) -> u32
    ensures { (result ≡ b % 4096) × (result < 4096) }
{
    b % 4096
}

// The angle of a bend, in two's complement.
pub fn angle_in(b: u32) -> usize
    ensures { (result ≡ angle_in b) × (result < 65536) }
{
    ((b % 4096 + 63736) % 65536) as usize
}

// The twelve bits of an angle in two's complement; 4,095 if it is out of range.
pub fn code_of(a: usize) -> u32
    requires { a < 65536 }
    ensures { (result ≡ code_of a) × (result < 4096) }
{
    let x = (a + 1800) % 65536;
    if x > 3600 {
        // what may not change: 4,095 is part of the packed number, by the definition code_of
        return 4095;
    }
    x as u32
}

// The keys of the bends.
pub fn keys_in(bends: &[u32], keys: &mut [u32])
    requires { length keys.old ≡ length bends.now }
    ensures { keys.new ≡ keys_in bends.now }
{
    for (j, &b) in bends.iter().enumerate() {
        keys[j] = key_in(b);
    }
}
