// Well-formed UTF-8: the sequences of bytes of the Unicode Standard's Table 3-7.
ghost use Rattle.std.specs.Prelude.{◌≡◌, ◌∷◌, ◌+◌, ◌≤◌, ◌<◌, length, drop, get_or};
ghost use Rattle.wire.specs.Scan.{ahead, follow};
ghost use Rattle.wire_letters.specs.Scan.{row_end, letters_end};
ghost use Rattle.protocol.specs.Text.{◌to◌, within, well_formed};

use super::plain::plain_end;

// Whether a byte is in a range, both ends in it.
fn is_within(b: u8, low: u8, high: u8) -> bool
    ensures { result ≡ within (low to high) b }
{
    low <= b && b <= high
}

// Whether a letter of a row of the table stands at `i`. A row whose letters are not plain has the ranges of their
// first and of their second byte, and how many bytes are left after the first. Those after the second are in the
// same range in every row.
fn is_letter(s: &[u8], i: usize, first: u8, last: u8, low: u8, high: u8, left: usize) -> bool
    requires { (i + left < length s.now) × (0 < left) × (left < 4) }
    ensures { result ≡ follow ((first to last) ∷ ahead left (low to high)) (drop i s.now) }
{
    if !is_within(s[i], first, last) {
        return false;
    }
    if !is_within(s[i + 1], low, high) {
        return false;
    }
    if left == 1 {
        return true;
    }
    if !is_within(s[i + 2], 0x80, 0xbf) {
        return false;
    }
    if left == 2 {
        return true;
    }
    is_within(s[i + 3], 0x80, 0xbf)
}

// The end of the letters of one row at `from`.
fn row_end(s: &[u8], from: usize, first: u8, last: u8, low: u8, high: u8, left: usize) -> usize
    requires { (from ≤ length s.now) × (0 < left) × (left < 4) }
    ensures { result ≡ row_end ((first to last) ∷ ahead left (low to high)) s.now from }
{
    let mut i = from;
    while left < s.len() - i {
        if !is_letter(s, i, first, last, low, high, left) {
            return i;
        }
        i += left + 1;
    }
    i
}

// The end of the letters at `i` that have the row of the first of them, one of three bytes. To leave out letters that could be
// shorter (e0) and the surrogates (ed), two first bytes narrow the range of the second.
fn threes_end(s: &[u8], i: usize) -> usize
    requires { (i < length s.now) × (0xe0 ≤ get_or s.now i 0) × (get_or s.now i 0 < 0xf0) }
    ensures { result ≡ letters_end s.now i }
{
    match s[i] {
        0xe0 => row_end(s, i, 0xe0, 0xe0, 0xa0, 0xbf, 2),
        0xe1..=0xec => row_end(s, i, 0xe1, 0xec, 0x80, 0xbf, 2),
        0xed => row_end(s, i, 0xed, 0xed, 0x80, 0x9f, 2),
        _ => row_end(s, i, 0xee, 0xef, 0x80, 0xbf, 2),
    }
}

// The same of four bytes: narrowed where a letter could be shorter (f0), and past the last letter (f4).
fn fours_end(s: &[u8], i: usize) -> usize
    requires { (i < length s.now) × (0xf0 ≤ get_or s.now i 0) × (get_or s.now i 0 < 0xf5) }
    ensures { result ≡ letters_end s.now i }
{
    match s[i] {
        0xf0 => row_end(s, i, 0xf0, 0xf0, 0x90, 0xbf, 3),
        0xf1..=0xf3 => row_end(s, i, 0xf1, 0xf3, 0x80, 0xbf, 3),
        _ => row_end(s, i, 0xf4, 0xf4, 0x80, 0x8f, 3),
    }
}

// The end of the letters at `i`, the first of which is not plain, that have the row of that one; `i` where no letter stands there.
// Letters of one script mostly share a row, and each row has its own call, with constants, so that it becomes its own short loop.
pub fn letters_end(s: &[u8], i: usize) -> usize
    requires { (i < length s.now) × (0x80 ≤ get_or s.now i 0) }
    ensures { result ≡ letters_end s.now i }
{
    match s[i] {
        0xc2..=0xdf => row_end(s, i, 0xc2, 0xdf, 0x80, 0xbf, 1),
        0xe0..=0xef => threes_end(s, i),
        0xf0..=0xf4 => fours_end(s, i),
        _ => i,
    }
}

// Whether the bytes are well-formed UTF-8.
pub fn is_utf8(s: &[u8]) -> bool
    ensures { result ≡ well_formed s.now }
{
    let mut i = 0;
    while i < s.len() {
        if s[i] < 0x80 {
            i = plain_end(s, i);
        } else {
            let end = letters_end(s, i);
            if end == i {
                return false;
            }
            i = end;
        }
    }
    true
}
