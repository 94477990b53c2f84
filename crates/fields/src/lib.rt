// Little-endian numbers at places of lent bytes.
//
// The writer stores from the place `at` on and leaves every other byte as it was; the reader takes what stands there. Each asks its caller
// that the place lies inside the buffer.
#![tactic(auto)]

ghost use Rattle.std.specs.Prelude.{◌≡◌, ◌+◌, ◌^◌, ◌≤◌, ◌<◌, length};
ghost use Rattle.std.proofs.lemmas.List.Edits.{sets};
ghost use Rattle.fields.specs.LittleEndian.{number_at, to_bytes};

// Stores the `w` low bytes of `v`, the low byte first.
pub fn put(buf: &mut [u8], at: usize, w: usize, v: u64)
    requires { at + w ≤ length buf.old }
    ensures { buf.new ≡ sets buf.old at (to_bytes w v) }
{
    let mut x = v;
    for i in 0..w {
        buf[at + i] = (x % 256) as u8;
        x /= 256;
    }
}

// The number that `w` bytes stand for, read from the top byte down.
pub fn get(buf: &[u8], at: usize, w: usize) -> u64
    requires { (at + w ≤ length buf.now) × (w ≤ 8) }
    ensures { (result ≡ number_at buf.now at w) × (result < 256 ^ w) }
{
    let mut x = 0;
    for i in (0..w).rev() {
        x = x * 256 + buf[at + i] as u64;
    }
    x
}
