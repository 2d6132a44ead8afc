// The step over plain bytes, those below 80 hex (L5).
ghost use Rattle.std.specs.Prelude.{◌≡◌, ◌+◌, ◌/◌, ◌≤◌, ◌<◌, leb, length, drop};
ghost use Rattle.std.specs.Int.Count.{count_trailing_zeros};
ghost use Rattle.wire.specs.Scan.{blocks_end, plain_run};
ghost use Rattle.wire_letters.specs.Scan.{run_end, highs};
ghost use Rattle.wire_letters.specs.Step.{plain_end};

// A number of 64 bits has the bytes of a word.
const WORD: usize = 8;
// The highest bit of each byte of a word: it is set where the byte is not plain.
const HIGH_BITS: u64 = 0x8080808080808080;
// A first block, and those after it. For a number of bytes that is known when it is compiled, the
// compiler makes vectors of a block: of sixteen bytes, the widest that every x86-64 has.
const FIRST_BLOCK: usize = 64;

const BLOCK: usize = 128;
// Nothing shorter has a word and a first block.
const NEAR: usize = 72;

// The end of the plain bytes at `from`, byte by byte: for fewer than a word has.
fn bytes_end(s: &[u8], from: usize) -> usize
    requires { from ≤ length s.now }
    ensures { result ≡ run_end s.now from }
{
    for i in from..s.len() {
        if 0x80 <= s[i] {
            return i;
        }
    }
    s.len()
}

// Of each of the eight bytes at `i` its highest bit, the first byte lowest.
fn high_at(s: &[u8], i: usize) -> u64
    requires { i + 8 ≤ length s.now }
    ensures { result ≡ highs 8 (drop i s.now) }
{
    let word = u64::from_le_bytes([
        s[i],
        s[i + 1],
        s[i + 2],
        s[i + 3],
        s[i + 4],
        s[i + 5],
        s[i + 6],
        s[i + 7],
    ]);
    word & HIGH_BITS
}

// Which byte of a word has the lowest bit that is set.
fn first_high(high: u64) -> usize
    ensures { result ≡ count_trailing_zeros 64 high / 8 }
{
    (high.trailing_zeros() / 8) as usize
}

// The end of the plain bytes at `from`, by words. The last word may have bytes that were looked at
// already, so that what is left needs no loop of its own.
fn words_end(s: &[u8], from: usize) -> usize
    requires { from + 8 ≤ length s.now }
    ensures { result ≡ run_end s.now from }
{
    let last = s.len() - WORD;
    let mut i = from;
    while i < last {
        let high = high_at(s, i);
        if high != 0 {
            return i + first_high(high);
        }
        i += WORD;
    }
    let high = high_at(s, last);
    if high != 0 {
        return last + first_high(high);
    }
    last + WORD
}

// The end of the plain bytes at `from`, of which few are left.
fn near_end(s: &[u8], from: usize) -> usize
    requires { from ≤ length s.now }
    ensures { result ≡ run_end s.now from }
{
    if s.len() - from < WORD {
        return bytes_end(s, from);
    }
    words_end(s, from)
}

// Whether the `n` bytes at `i` are plain. The loop looks for their greatest, and so has no way out
// before its end.
fn plain_block(s: &[u8], i: usize, n: usize) -> bool
    requires { i + n ≤ length s.now }
    ensures { result ≡ leb n (plain_run (drop i s.now)) }
{
    let mut high: u8 = 0;
    for b in &s[i..i + n] {
        high = high.max(*b);
    }
    high < 0x80
}

// The end of the whole blocks of `n` plain bytes at `from`.
fn plain_blocks(s: &[u8], from: usize, n: usize) -> usize
    requires { (from ≤ length s.now) × (0 < n) }
    ensures { result ≡ blocks_end s.now n from }
{
    let mut i = from;
    while n <= s.len() - i {
        if !plain_block(s, i, n) {
            return i;
        }
        i += n;
    }
    i
}

// The end of the plain bytes at `from`, by blocks where the first is plain.
fn far_end(s: &[u8], from: usize) -> usize
    requires { from + 64 ≤ length s.now }
    ensures { result ≡ run_end s.now from }
{
    if !plain_block(s, from, FIRST_BLOCK) {
        return words_end(s, from);
    }
    let far = plain_blocks(s, from + FIRST_BLOCK, BLOCK);
    near_end(s, far)
}

// The step: from any place it ends at the first byte of 80 hex or above, or at the run's end. A
// label has neither block nor loop of bytes, and where a byte of the first word is not plain, no
// block is looked at.
pub fn plain_end(s: &[u8], from: usize) -> usize
    ensures { result ≡ plain_end s.now from }
{
    if s.len() <= from {
        return from;
    }
    if s.len() - from < NEAR {
        return near_end(s, from);
    }
    let high = high_at(s, from);
    if high != 0 {
        return from + first_high(high);
    }
    far_end(s, from + WORD)
}
