// Bytes put into a slice, as many as there is room for.
ghost use Rattle.std.specs.Prelude.{◌≡◌, min};
ghost use Rattle.std.proofs.lemmas.List.Edits.{sets};

// The smaller of two numbers.
pub fn least(a: usize, b: usize) -> usize
    ensures { result ≡ min a b }
{
    a.min(b)
}

// All of `part`, stored from `at`: what would lie past the end of `out` is left out. The number of
// stores is known before the first, so that the loop has no further test and becomes one call of memcpy.
// Kept: the library's copy_from_slice is a call of memmove, and the archive is to need no more from outside than memcpy and memset.
pub fn put_bytes(part: &[u8], out: &mut [u8], at: usize)
    ensures { out.new ≡ sets out.old at part.now }
{
    if at < out.len() {
        let n = part.len().min(out.len() - at);
        for i in 0..n {
            out[at + i] = part[i];
        }
    }
}
