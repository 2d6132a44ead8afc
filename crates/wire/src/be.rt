// Big-endian numbers, read from bytes and written as bytes.
ghost use Rattle.std.specs.Prelude.{◌≡◌, ◌+◌, ◌*◌, ◌≤◌, ◌<◌, length, take, drop};
ghost use Rattle.std.proofs.lemmas.List.Edits.{sets};
ghost use Rattle.protocol.specs.Numbers.{be, bytes_be};

// The number of four bytes, the first the highest.
pub fn join(a: u8, b: u8, c: u8, d: u8) -> u32
    ensures { result ≡ ((a * 256 + b) * 256 + c) * 256 + d }
{
    u32::from_be_bytes([a, b, c, d])
}

// The number of the two bytes at `at`.
pub fn u16_at(s: &[u8], at: usize) -> u32
    requires { at + 2 ≤ length s.now }
    ensures { (result ≡ be (take 2 (drop at s.now))) × (result < 65536) }
{
    u32::from(u16::from_be_bytes([s[at], s[at + 1]]))
}

// The number of the four bytes at `at`.
pub fn u32_at(s: &[u8], at: usize) -> u32
    requires { at + 4 ≤ length s.now }
    ensures { result ≡ be (take 4 (drop at s.now)) }
{
    u32::from_be_bytes([s[at], s[at + 1], s[at + 2], s[at + 3]])
}

// The number of the `n` bytes at `at`, of which there are at most eight.
pub fn uint_at(s: &[u8], at: usize, n: usize) -> u64
    requires { (at + n ≤ length s.now) × (n ≤ 8) }
    ensures { result ≡ be (take n (drop at s.now)) }
{
    let mut v: u64 = 0;
    for b in &s[at..at + n] {
        v = v * 256 + u64::from(*b);
    }
    v
}

// The four bytes of a number, stored from `at`.
pub fn put_u32(out: &mut [u8], at: usize, v: u32)
    requires { at + 4 ≤ length out.old }
    ensures { out.new ≡ sets out.old at (bytes_be 4 v) }
{
    out[at..at + 4].copy_from_slice(&v.to_be_bytes());
}
