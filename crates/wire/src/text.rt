// Well-formed UTF-8: the sequences of bytes of the Unicode Standard's Table 3-7.
ghost use Rattle.std.specs.Prelude.{◌≡◌, ◌+◌, ◌≤◌, ◌<◌, min, leb, length, drop, get_or};
ghost use Rattle.wire.specs.Scan.{second, Begins, sequence_size, plain_end, blocks_end, plain_run};
ghost use Rattle.protocol.specs.Text.{◌to◌, within, well_formed};

// Whether a byte is in a range, both ends in it.
fn is_within(b: u8, low: u8, high: u8) -> bool
    ensures { result ≡ within (low to high) b }
{
    low <= b && b <= high
}

// Whether `c` may follow the first byte `b`. Four first bytes narrow the range of what follows them: to
// leave out sequences that are longer than their letter needs (e0, f0), the surrogates (ed), and
// what is past the last letter (f4).
fn may_follow(b: u8, c: u8) -> bool
    ensures { result ≡ within (second b) c }
{
    match b {
        0xe0 => is_within(c, 0xa0, 0xbf),
        0xed => is_within(c, 0x80, 0x9f),
        0xf0 => is_within(c, 0x90, 0xbf),
        0xf4 => is_within(c, 0x80, 0x8f),
        _ => is_within(c, 0x80, 0xbf),
    }
}

// The length of the sequence at `i`, whose first byte has `left` bytes after it, if those stand there.
fn rest_at(s: &[u8], i: usize, left: usize) -> Option<usize>
    requires { Begins s.now i left }
    ensures { result ≡ sequence_size (drop i s.now) }
{
    if s.len() - i <= left || !may_follow(s[i], s[i + 1]) {
        return None;
    }
    if left == 1 {
        return Some(2);
    }
    if !is_within(s[i + 2], 0x80, 0xbf) {
        return None;
    }
    if left == 2 {
        return Some(3);
    }
    if !is_within(s[i + 3], 0x80, 0xbf) {
        return None;
    }
    Some(4)
}

// The length of the sequence at `i`, where the byte is not plain, if one stands there. Each length
// has its own call, with a constant, so that each becomes its own short row of tests.
fn sequence_at(s: &[u8], i: usize) -> Option<usize>
    requires { (i < length s.now) × (0x80 ≤ get_or s.now i 0) }
    ensures { result ≡ sequence_size (drop i s.now) }
{
    match s[i] {
        0xc2..=0xdf => rest_at(s, i, 1),
        0xe0..=0xef => rest_at(s, i, 2),
        0xf0..=0xf4 => rest_at(s, i, 3),
        _ => None,
    }
}

// The first index from `from` up to `end` whose byte is not plain, or `end`.
fn plain_prefix(s: &[u8], from: usize, end: usize) -> usize
    requires { (from ≤ end) × (end ≤ length s.now) }
    ensures { result ≡ min end (plain_end s.now from) }
{
    for i in from..end {
        if 0x80 <= s[i] {
            return i;
        }
    }
    end
}

// Whether the `n` bytes at `i` are plain. The loop looks for their greatest, and so has no way out
// before its end: for a number of bytes that is known when it is compiled, the compiler makes it
// one of vectors.
fn plain_block(s: &[u8], i: usize, n: usize) -> bool
    requires { i + n ≤ length s.now }
    ensures { result ≡ leb n (plain_run (drop i s.now)) }
{
    let mut high: u8 = 0;
    for b in &s[i..i + n] {
        high = high.max(*b);
    }
    high < 0x80
}

// The end of the whole blocks of `n` plain bytes at `from`.
fn plain_blocks(s: &[u8], from: usize, n: usize) -> usize
    requires { (from ≤ length s.now) × (0 < n) }
    ensures { result ≡ blocks_end s.now n from }
{
    let mut i = from;
    while n <= s.len() - i {
        if !plain_block(s, i, n) {
            return i;
        }
        i += n;
    }
    i
}

// The end of the plain bytes at `from`. The first sixteen are looked at one by one, so that a short
// run costs no block; then large blocks are passed over, small ones, and what is left.
pub fn plain_end(s: &[u8], from: usize) -> usize
    ensures { result ≡ from + plain_run (drop from s.now) }
{
    if s.len() <= from {
        return from;
    }
    if s.len() - from < 16 {
        return plain_prefix(s, from, s.len());
    }
    let near = from + 16;
    let i = plain_prefix(s, from, near);
    if i < near {
        return i;
    }
    let large = plain_blocks(s, i, 128);
    let small = plain_blocks(s, large, 16);
    plain_prefix(s, small, s.len())
}

// Whether the bytes are well-formed UTF-8.
pub fn is_utf8(s: &[u8]) -> bool
    ensures { result ≡ well_formed s.now }
{
    let mut i = 0;
    while i < s.len() {
        if s[i] < 0x80 {
            i = plain_end(s, i);
        } else {
            let Some(n) = sequence_at(s, i) else {
                return false;
            };
            i += n;
        }
    }
    true
}
