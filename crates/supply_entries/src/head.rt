// The heads of a container's elements. The reserved bytes in them are zero.
ghost use Rattle.std.specs.Prelude.{◌≡◌, ◌++◌, ◌≤◌, set};
ghost use Rattle.std.proofs.lemmas.List.Edits.{sets};
ghost use Rattle.supply_entries.specs.Emitting.{head_of, head_size};
ghost use Rattle.protocol.specs.Numbers.{bytes_be};

// A byte, if there is room for it.
pub fn put_byte(v: u8, out: &mut [u8], at: usize)
    ensures { out.new ≡ set out.old at v }
{
    if at < out.len() {
        out[at] = v;
    }
}

// The four bytes of a number, as far as there is room: all of them or none, but at the very end of the output.
pub fn put_word(v: u32, out: &mut [u8], at: usize)
    ensures { out.new ≡ sets out.old at (bytes_be 4 v) }
{
    if at < out.len() && 4 <= out.len() - at {
        wire::be::put_u32(out, at, v);
    } else {
        wire::copy::put_bytes(&v.to_be_bytes(), out, at);
    }
}

// Two numbers, one after the other.
pub fn put_pair(a: u32, b: u32, out: &mut [u8], at: usize)
    requires { at ≤ 131072 }
    ensures { out.new ≡ sets out.old at (bytes_be 4 a ++ bytes_be 4 b) }
{
    put_word(a, out, at);
    put_word(b, out, at + 4);
}

// How many bytes come before an element's data, by the kind of its container: a set of arrays (3) has an envelope; sets and arrays (2) and
// ranges (7) have the length alone; tuples and objects have four bytes more.
pub fn head_size(kind: u32) -> usize
    ensures { result ≡ head_size kind }
{
    match kind {
        constants::KIND_SET_OF_ARRAYS => 16,
        constants::KIND_SET_OR_ARRAY | constants::KIND_RANGE => 4,
        _ => 8,
    }
}

// The head of the element with an index, whose data has n bytes: in a set of arrays the envelope's four numbers (R5.6), in a sparse object (6)
// the index and the length (R5.9), in sets, arrays and ranges the length alone (R5.5, R5.13), and else four reserved bytes and the length (R5.7,
// R5.8).
pub fn put_head(kind: u32, index: u32, n: u32, out: &mut [u8], at: usize)
    requires { (at ≤ 65535) × (kind ≡ 3 → n ≤ 65535) }
    ensures { out.new ≡ sets out.old at (head_of kind index n) }
{
    match kind {
        constants::KIND_SET_OF_ARRAYS => {
            put_pair(12 + n, 1, out, at);
            put_pair(0, n, out, at + 8);
        },
        constants::KIND_INPUT_OBJECT => put_pair(index, n, out, at),
        constants::KIND_SET_OR_ARRAY | constants::KIND_RANGE => put_word(n, out, at),
        _ => put_pair(0, n, out, at),
    }
}
