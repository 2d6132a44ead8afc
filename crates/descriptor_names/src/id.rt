// Ids: 16 bytes, compared as two numbers of eight bytes.
#![tactic(auto, using(std::proofs::lemmas::Bool::Decides::nat_tests, crate::proofs::Earlier::taken_index), unfolding(descriptor_fields::specs::Fields::format_of, descriptor_fields::specs::Fields::id_fault, protocol::specs::Numbers::pick))]

ghost use Rattle.std.specs.Prelude.{◌≡◌, ◌+◌, ◌≤◌, eqb, length};
ghost use Rattle.descriptor_fields.specs.Fields.{id_at, format_of, index_in, id_fault};
ghost use Rattle.descriptor_fields.specs.Earlier.{before};

use descriptor_fields::earlier::Earlier;
use forms::fault::Fault;

// Whether an id is zero.
pub fn is_zero(s: &[u8], at: usize) -> bool
    requires { at + 16 ≤ length s.now }
    ensures { result ≡ eqb (id_at s.now at) 0 }
{
    wire::be::uint_at(s, at, 8) == 0 && wire::be::uint_at(s, at + 8, 8) == 0
}

// Whether two ids are the same, by all of their bytes.
fn same_whole(s: &[u8], a: usize, t: &[u8], b: usize) -> bool
    requires { (a + 16 ≤ length s.now) × (b + 16 ≤ length t.now) }
    ensures { result ≡ eqb (id_at s.now a) (id_at t.now b) }
{
    wire::be::uint_at(s, a + 8, 8) == wire::be::uint_at(t, b + 8, 8)
        && wire::be::uint_at(s, a, 8) == wire::be::uint_at(t, b, 8)
}

// The same. The last four bytes tell most ids apart, and are one number; an id is compared with every earlier one, so most are compared
// by these alone.
pub fn same(s: &[u8], a: usize, t: &[u8], b: usize) -> bool
    requires { (a + 16 ≤ length s.now) × (b + 16 ≤ length t.now) }
    ensures { result ≡ eqb (id_at s.now a) (id_at t.now b) }
{
    wire::be::u32_at(s, a + 12) == wire::be::u32_at(t, b + 12) && same_whole(s, a, t, b)
}

// The format of an id whose first eight bytes are zero (R3.15).
fn format_of_low(low: u64) -> Option<u32>
    ensures { result ≡ format_of low }
{
    match low {
        0x100..=0x112 => Some((low - 0x100) as u32),
        0x130 => Some(constants::FORMAT_MEMORY),
        _ => None,
    }
}

// The format of a scalar's id, where the id is known (R3.15).
pub fn format_of(s: &[u8], at: usize) -> Option<u32>
    requires { at + 16 ≤ length s.now }
    ensures { result ≡ format_of (id_at s.now at) }
{
    if wire::be::uint_at(s, at, 8) != 0 {
        return None;
    }
    format_of_low(wire::be::uint_at(s, at + 8, 8))
}

// The index of the first earlier block whose id is the one at a place of `s`.
pub fn find(earlier: Earlier, s: &[u8], at: usize) -> Option<usize>
    requires { at + 16 ≤ length s.now }
    ensures { result ≡ index_in earlier.entry.d.now (before earlier.entry) (id_at s.now at) }
{
    for i in 0..earlier.n {
        if same(earlier.d, earlier.start(i) + 1, s, at) {
            return Some(i);
        }
    }
    None
}

// 15: an id that is zero, or an earlier block's.
pub fn check(earlier: Earlier, at: usize) -> Result<(), Fault>
    requires { at + 16 ≤ length earlier.d.now }
    ensures { result ≡ id_fault earlier.entry.d.now (before earlier.entry) (id_at earlier.entry.d.now at) }
{
    if is_zero(earlier.d, at) || find(earlier, earlier.d, at).is_some() {
        return Err(Fault::BAD_ID);
    }
    Ok(())
}
