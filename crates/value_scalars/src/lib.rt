// Whether a value's bytes are permitted: the twenty scalar formats, and enumerations.
#![tactic(auto)]

pub mod format;
pub mod number;

ghost use Rattle.std.specs.Prelude.{◌≡◌, ◌+◌, ◌≤◌, length, take, drop};
ghost use Rattle.value_scalars.specs.Sizes.{Fixed};
ghost use Rattle.protocol.specs.Scalars.{boolean, duration, local_time, json, scalar, enumeration};

// Whether the bytes are a bool: one byte, 0 or 1.
fn bool_ok(v: &[u8]) -> bool
    ensures { result ≡ boolean v.now }
{
    v.len() == 1 && v[0] < 2
}

// Whether the bytes are a duration: microseconds, any integer, and then 8 reserved bytes, all zero.
fn duration_ok(v: &[u8]) -> bool
    ensures { result ≡ duration v.now }
{
    v.len() == 16 && wire::be::uint_at(v, 8, 8) == 0
}

// Whether the eight bytes from `at` on are a time of day. A day has 256 times 337,500,000 microseconds, so the last byte may be anything; of a
// negative number the first is not zero. If the number of all eight is compared, the compiler reads each by itself, and a set takes a third longer.
pub fn in_day(s: &[u8], at: usize) -> bool
    requires { at + 8 ≤ length s.now }
    ensures { result ≡ local_time (take 8 (drop at s.now)) }
{
    wire::be::u32_at(s, at) <= 255
        && u64::from(wire::be::u32_at(s, at + 3)) <= constants::MOST_LOCAL_TIME / 256
}

// Whether the bytes are a local_time: eight bytes, a time of day.
fn local_time_ok(v: &[u8]) -> bool
    ensures { result ≡ local_time v.now }
{
    v.len() == 8 && in_day(v, 0)
}

// Whether the bytes are json: its encoding, of which there is one, and then text.
fn json_ok(v: &[u8]) -> bool
    ensures { result ≡ json v.now }
{
    match v {
        [1, text @ ..] => wire::text::is_utf8(text),
        _ => false,
    }
}

// Whether the bytes are a value of a format that has a rule beside its size, or none; of a format that is not there none are. Bool and local_time
// are told before.
fn ruled_ok(format: u32, v: &[u8]) -> bool
    requires { (Fixed format 0) × (format ≡ 9 → ⊥) × (format ≡ 13 → ⊥) }
    ensures { result ≡ scalar format v.now }
{
    match format {
        constants::FORMAT_STR => wire::text::is_utf8(v),
        constants::FORMAT_BYTES => true,
        constants::FORMAT_DECIMAL => number::decimal_ok(v),
        constants::FORMAT_DURATION => duration_ok(v),
        constants::FORMAT_JSON => json_ok(v),
        constants::FORMAT_BIGINT => number::bigint_ok(v),
        _ => false,
    }
}

// Whether the bytes are a value of a scalar format. What takes a test or two is told here, and so without a call wherever this is put inline.
pub fn scalar_ok(format: u32, v: &[u8]) -> bool
    ensures { result ≡ scalar format v.now }
{
    let n = format::fixed_size(format);
    if 0 < n {
        return v.len() == n;
    }
    if format == constants::FORMAT_BOOL {
        return bool_ok(v);
    }
    if format == constants::FORMAT_LOCAL_TIME {
        return local_time_ok(v);
    }
    ruled_ok(format, v)
}

// Whether the bytes are a value of an enumeration.
pub fn enumeration_ok(v: &[u8]) -> bool
    ensures { result ≡ enumeration v.now }
{
    wire::text::is_utf8(v)
}
