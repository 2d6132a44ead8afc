// Number fields: their sizes and their rules.
#![tactic(auto, using(std::proofs::lemmas::Bool::Decides::nat_tests, crate::proofs::Known::be_one), unfolding(crate::specs::Fields::width_of, crate::specs::Fields::number_at, crate::specs::Fields::extent, crate::specs::Fields::permits, crate::specs::Fields::number_fault, crate::specs::Fields::formatless, crate::specs::Fields::count_fault, protocol::specs::Numbers::pick))]

ghost use Rattle.std.specs.Prelude.{◌≡◌, ◌+◌, ◌≤◌, length};
ghost use Rattle.descriptor_fields.specs.Fields.{width_of, number_at, extent, permits, number_fault, formatless, count_fault};

use crate::{Field, kinds};
use forms::fault::Fault;

// The most items of a count, which is a number of a field.
const MOST_ITEMS: u32 = constants::MOST_ITEMS as u32;

// The number of a field.
pub fn number_at(d: &[u8], code: u8, at: usize) -> u32
    requires { at + width_of code ≤ length d.now }
    ensures { result ≡ number_at d.now code at }
{
    if code <= kinds::CARDINALITY {
        return u32::from(d[at]);
    }
    if code <= kinds::BOUND {
        return wire::be::u32_at(d, at);
    }
    wire::be::u16_at(d, at)
}

// The bytes of a text, at least the four that say how many there are.
fn text_extent(d: &[u8], at: usize) -> usize
    requires { at ≤ 65535 }
    ensures value { result ≡ extent d.now 2 at }
    ensures few { result ≤ 4294967299 }
{
    if d.len() < at + 4 {
        return 4;
    }
    4 + wire::be::u32_at(d, at) as usize
}

// The bytes of a field.
pub fn extent_of(d: &[u8], code: u8, at: usize) -> usize
    requires { at ≤ 65535 }
    ensures value { result ≡ extent d.now code at }
    ensures few { result ≤ 4294967299 }
{
    if code == kinds::ID {
        return 16;
    }
    if code <= kinds::NAME {
        return text_extent(d, at);
    }
    if code <= kinds::CARDINALITY {
        return 1;
    }
    if code <= kinds::BOUND {
        return 4;
    }
    2
}

// Whether a number is one that its field permits.
fn is_permitted(code: u8, v: u32) -> bool
    ensures { result ≡ permits code v }
{
    match code {
        0..=kinds::FREE => v <= 1,
        kinds::OPERATION => v == 1 || v == 2,
        kinds::CARDINALITY => wire::words::is_cardinality(v),
        kinds::SHAPE_FLAGS => v < 8,
        kinds::INPUT_FLAGS => v == 0,
        kinds::BOUND => v == constants::UNBOUNDED,
        _ => v == 1,
    }
}

// 12: a number that its field does not permit.
pub fn check(code: u8, v: u32) -> Result<(), Fault>
    ensures { result ≡ number_fault code v }
{
    if is_permitted(code, v) {
        return Ok(());
    }
    Err(Fault::BAD_CONTENT)
}

// Whether the block is a scalar whose format is yet to come.
pub fn is_formatless(field: Field) -> bool
    ensures { result ≡ formatless field.tag field.x }
{
    field.tag == constants::TAG_SCALAR && field.x.format.is_none()
}

// 17: more than 512 items. 12: no ancestor for a scalar whose own id is not known.
pub fn check_count(field: Field, v: u32) -> Result<(), Fault>
    ensures { result ≡ count_fault field.tag field.code field.x v }
{
    if MOST_ITEMS < v {
        return Err(Fault::DESCRIPTOR_SIZE);
    }
    if field.code == kinds::ANCESTORS && v == 0 && is_formatless(field) {
        return Err(Fault::BAD_CONTENT);
    }
    Ok(())
}
