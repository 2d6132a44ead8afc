// Numbers of any length: decimal and bigint. Each starts with four fields of two bytes, ndigits, weight, sign and a last one (a
// decimal's dscale, a bigint's reserved), and then has ndigits digits of two bytes, to the base 10,000.
ghost use Rattle.std.specs.Prelude.{◌≡◌, ◌<◌};
ghost use Rattle.protocol.specs.Scalars.{sign, digits, decimal, no_fraction, bigint};

// Whether the bytes are digits, each to 9,999.
fn digits_ok(s: &[u8]) -> bool
    ensures { result ≡ digits s.now }
{
    for digit in s.chunks_exact(2) {
        if 9999 < wire::be::u16_at(digit, 0) {
            return false;
        }
    }
    s.len() % 2 == 0
}

// Whether a sign is one of the two, plus and minus.
fn sign_ok(s: u32) -> bool
    ensures { result ≡ sign s }
{
    s == 0 || s == 0x4000
}

// Whether the bytes are a decimal: as many digits as ndigits says and no byte more.
pub fn decimal_ok(v: &[u8]) -> bool
    ensures { result ≡ decimal v.now }
{
    if v.len() < 8 {
        return false;
    }
    let n = wire::be::u16_at(v, 0) as usize;
    v.len() == 8 + 2 * n && sign_ok(wire::be::u16_at(v, 4)) && digits_ok(&v[8..])
}

// Whether no digit stands after the decimal point: the first of n digits counts 10,000 to the power of the weight, which is signed
// and so negative from 8000 hex.
fn whole_ok(n: u32, weight: u32) -> bool
    requires { weight < 65536 }
    ensures { result ≡ no_fraction n weight }
{
    n == 0 || (weight < 0x8000 && n <= weight + 1)
}

// Whether the bytes are a bigint: a decimal with its last field zero and no digit after the point.
pub fn bigint_ok(v: &[u8]) -> bool
    ensures { result ≡ bigint v.now }
{
    if !decimal_ok(v) {
        return false;
    }
    wire::be::u16_at(v, 6) == 0 && whole_ok(wire::be::u16_at(v, 0), wire::be::u16_at(v, 2))
}
