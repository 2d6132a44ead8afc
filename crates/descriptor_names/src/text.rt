// Texts, and the names of elements.
#![tactic(auto, using(std::proofs::lemmas::Bool::Decides::nat_tests), unfolding(descriptor_fields::specs::Fields::text_fault, protocol::specs::Numbers::pick))]

ghost use Rattle.std.specs.Prelude.{◌≡◌, ◌+◌, ◌*◌, ◌^◌, ◌≤◌, ◌<◌, length};
ghost use Rattle.descriptor_fields.specs.Fields.{text_at, named, text_fault};
ghost use Rattle.descriptor_fields.specs.Arrays.{elements_of};
ghost use Rattle.protocol.specs.Numbers.{same_bytes};

use descriptor_fields::kinds;
use forms::fault::Fault;
use wire::words::wide;

// The content of the text at a place; of one that is not whole, what is there.
pub fn content(d: &[u8], at: usize) -> &[u8]
    requires { (length d.now ≤ 65535) × (at < 2 ^ 32) }
    ensures { result.now ≡ text_at d.now at }
{
    if d.len() < at + 4 {
        return &d[0..0];
    }
    let rest = &d[at + 4..];
    let size = wire::be::u32_at(d, at) as usize;
    &rest[..size.min(rest.len())]
}

// Whether two runs of bytes are the same.
// Kept for speed: the loop has no early end, so that it becomes one over vectors.
fn same_bytes(a: &[u8], b: &[u8]) -> bool
    ensures { result ≡ same_bytes a.now b.now }
{
    if a.len() != b.len() {
        return false;
    }
    let mut same = true;
    for i in 0..a.len() {
        same = same & (a[i] == b[i]);
    }
    same
}

// The same of names. The last byte tells most of them apart, as in `batch1` and `batch2`; a name is compared with every earlier one of its
// block, so most are compared by that alone.
fn same_name(a: &[u8], b: &[u8]) -> bool
    ensures { result ≡ same_bytes a.now b.now }
{
    let n = a.len();
    if n != b.len() {
        return false;
    }
    if 0 < n && a[n - 1] != b[n - 1] {
        return false;
    }
    same_bytes(a, b)
}

// Whether one of the n elements so far has the name at a place.
fn is_named(d: &[u8], elements: &[u32], n: usize, at: usize) -> bool
    requires { (length d.now ≤ 65535) × (at ≤ length d.now) × (n ≤ 512) × (3 * n ≤ length elements.now) }
    ensures { result ≡ named d.now (elements_of elements.now n) at }
{
    let name = content(d, at);
    for i in 0..n {
        if same_name(content(d, wide(elements[3 * i])), name) {
            return true;
        }
    }
    false
}

// 12: a text that is not well formed. 16: a name that an element before it has.
pub fn check(d: &[u8], elements: &[u32], n: usize, code: u8, at: usize) -> Result<(), Fault>
    requires { (length d.now ≤ 65535) × (at ≤ length d.now) × (n ≤ 512) × (3 * n ≤ length elements.now) }
    ensures { result ≡ text_fault d.now (elements_of elements.now n) code at }
{
    if !wire::text::is_utf8(content(d, at)) {
        return Err(Fault::BAD_CONTENT);
    }
    if code == kinds::NAME && is_named(d, elements, n, at) {
        return Err(Fault::NAME_TWICE);
    }
    Ok(())
}
