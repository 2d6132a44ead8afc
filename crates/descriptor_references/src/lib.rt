// References to earlier blocks.
#![tactic(auto, using(std::proofs::lemmas::Bool::Decides::nat_tests, descriptor_fields::proofs::Known::known_get, descriptor_fields::proofs::Known::known_in, descriptor_fields::proofs::Known::known_out, descriptor_fields::proofs::Known::known_beyond), unfolding(descriptor_fields::specs::Fields::decides, descriptor_fields::specs::Fields::format_by, descriptor_fields::specs::Fields::fits, descriptor_fields::specs::Fields::kind_fault, descriptor_fields::specs::Fields::ref_fault, descriptor_fields::specs::Arrays::known_at, protocol::specs::Numbers::pick))]

ghost use Rattle.std.specs.Prelude.{◌≡◌, false, ◌≤◌, ◌<◌, eqb, get_or};
ghost use Rattle.descriptor_fields.specs.Layouts.{valued};
ghost use Rattle.descriptor_fields.specs.Fields.{no_block, decides, format_by, fits, kind_fault, ref_fault};
ghost use Rattle.descriptor_fields.specs.Arrays.{known_at};
ghost use Rattle.descriptor_fields.specs.Earlier.{before};
ghost use Rattle.protocol.specs.Numbers.{pick};

use descriptor_fields::earlier::Earlier;
use descriptor_fields::{Field, kinds, number};
use descriptor_names::id;
use forms::fault::Fault;

// Whether the ancestor that is read now is the one that the format comes from.
pub fn is_deciding(field: Field) -> bool
    ensures { result ≡ decides field.tag field.x }
{
    number::is_formatless(field) && field.x.left == 1
}

// The format that the id of an earlier block stands for, where the block is a scalar and its id is known (R3.15).
pub fn format_by(earlier: Earlier, i: usize) -> Option<u32>
    requires { i < earlier.n }
    ensures { result ≡ format_by earlier.entry.d.now (known_at earlier.entry.d.now earlier.entry.known.now i) }
{
    if earlier.tag(i) != constants::TAG_SCALAR {
        return None;
    }
    id::format_of(earlier.d, earlier.start(i) + 1)
}

// Whether a block with a tag may be the element of a set.
fn may_be_in_set(tag: u32) -> bool
    ensures { result ≡ pick (eqb tag 0) false (valued tag) }
{
    tag != constants::TAG_SET && kinds::has_values(tag)
}

// Whether it may be the element of an array.
fn may_be_in_array(tag: u32) -> bool
    ensures { result ≡ pick (eqb tag 0) false (pick (eqb tag 6) false (valued tag)) }
{
    !matches!(tag, constants::TAG_SET | constants::TAG_ARRAY) && kinds::has_values(tag)
}

// Whether a field may refer to an earlier block.
fn is_fitting(earlier: Earlier, field: Field, i: usize) -> bool
    requires { i < earlier.n }
    ensures { result ≡ fits earlier.entry.d.now field.tag field.code field.x (known_at earlier.entry.d.now earlier.entry.known.now i) }
{
    if field.code == kinds::ANCESTOR {
        return !is_deciding(field) || format_by(earlier, i).is_some();
    }
    let other = earlier.tag(i);
    match field.code {
        kinds::ANY => true,
        kinds::OBJECT => kinds::is_object(other),
        kinds::ELEMENT => kinds::has_values(other),
        kinds::SET_ELEMENT => may_be_in_set(other),
        kinds::ARRAY_ELEMENT => may_be_in_array(other),
        _ => other == constants::TAG_SCALAR,
    }
}

// 14: a block that may not stand there (R3.11). 17: an element that would make the block too high (R3.13).
fn check_kind(earlier: Earlier, field: Field, i: usize) -> Result<(), Fault>
    requires { i < earlier.n }
    ensures { result ≡ kind_fault earlier.entry.d.now field.tag field.code field.x (known_at earlier.entry.d.now earlier.entry.known.now i) }
{
    if !is_fitting(earlier, field, i) {
        return Err(Fault::WRONG_KIND);
    }
    if kinds::ELEMENT <= field.code && constants::MOST_HEIGHT <= earlier.height(i) {
        return Err(Fault::DESCRIPTOR_SIZE);
    }
    Ok(())
}

// Whether the field is a type of a free shape, which is not checked.
fn is_free(field: Field) -> bool
    ensures { result ≡ pick (eqb field.code 16) (eqb field.x.free 1) false }
{
    field.code == kinds::OBJECT && field.x.free == 1
}

// 13: no earlier block; then by the kind of the block.
pub fn check(earlier: Earlier, field: Field, v: u32) -> Result<(), Fault>
    ensures { result ≡ ref_fault earlier.entry.d.now (before earlier.entry) field.tag field.code field.x v }
{
    if is_free(field) {
        return Ok(());
    }
    let i = v as usize;
    if i < earlier.n {
        return check_kind(earlier, field, i);
    }
    Err(Fault::BAD_REFERENCE)
}

// What a field keeps of the block that it refers to: its height, and its format; nothing of a block that is not there.
pub fn height_at(earlier: Earlier, v: u32) -> u32
    ensures value { result ≡ (get_or (before earlier.entry) v no_block).height }
    ensures low { result ≤ 32 }
{
    let i = v as usize;
    if i < earlier.n { earlier.height(i) } else { 0 }
}

pub fn format_at(earlier: Earlier, v: u32) -> Option<u32>
    ensures { result ≡ format_by earlier.entry.d.now (get_or (before earlier.entry) v no_block) }
{
    let i = v as usize;
    if i < earlier.n {
        format_by(earlier, i)
    } else {
        None
    }
}
