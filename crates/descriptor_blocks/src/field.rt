// A field of a block: whether it is complete (R3.5), its rule, and what is kept of it.
ghost use Rattle.std.specs.Prelude.{◌≡◌, ◌+◌, ◌≤◌, ◌<◌, length};
ghost use Rattle.descriptor_fields.specs.Fields.{extent, fault, kept, grown};
ghost use Rattle.descriptor_blocks.specs.Blocks as reading;
ghost use Rattle.descriptor_fields.specs.Arrays.{Roomy, elements_of};
ghost use Rattle.descriptor_fields.specs.Earlier.{before};
ghost use Rattle.descriptor_blocks.specs.Walks.{push, led, walk_of, Inside};
ghost use Rattle.protocol.specs.Numbers.{at_least};

use descriptor_fields::earlier::Earlier;
use descriptor_fields::{Draft, Field, kinds, number};
use descriptor_names::{id, text};
use forms::fault::Fault;

// The rule of a field that is whole.
fn check(earlier: Earlier, field: Field, elements: &[u32]) -> Result<(), Fault>
    requires { (Roomy elements.now field.x.count) × (field.x.at + extent earlier.d.now field.code field.x.at ≤ length earlier.d.now) }
    ensures { result
        ≡ fault earlier.entry.d.now (before earlier.entry) field.tag field.code field.x (elements_of elements.now field.x.count) }
{
    let code = field.code;
    let at = field.x.at;
    if code == kinds::ID {
        return id::check(earlier, at);
    }
    if code <= kinds::NAME {
        return text::check(earlier.d, elements, field.x.count, code, at);
    }
    let v = number::number_at(earlier.d, code, at);
    if code <= kinds::DIMENSIONS {
        return number::check(code, v);
    }
    if code <= kinds::COUNT {
        return number::check_count(field, v);
    }
    descriptor_references::check(earlier, field, v)
}

// What is kept after an element reference, and the element.
fn keep_element(earlier: Earlier, field: Field, elements: &mut [u32]) -> Draft
    requires { (Roomy elements.old (field.x.count + 1)) × (17 ≤ field.code) × (field.x.at + 2 ≤ length earlier.d.now) }
    ensures value { result ≡ kept earlier.entry.d.now (before earlier.entry) field.tag field.code field.x }
    ensures elements { elements_of elements.new result.count ≡ grown earlier.entry.d.now field.code field.x (elements_of elements.old field.x.count) }
{
    let mut x = field.x;
    let v = number::number_at(earlier.d, field.code, x.at);
    let k = 3 * x.count;
    elements[k] = x.name;
    elements[k + 1] = v;
    elements[k + 2] = x.card;
    x.height = x
        .height
        .max(descriptor_references::height_at(earlier, v) + 1);
    x.count += 1;
    x.at += 2;
    x
}

// What is kept after any other field.
fn keep(earlier: Earlier, field: Field) -> Draft
    requires { (field.code < 17) × (field.x.at + extent earlier.d.now field.code field.x.at ≤ length earlier.d.now) }
    ensures { result ≡ kept earlier.entry.d.now (before earlier.entry) field.tag field.code field.x }
{
    let d = earlier.d;
    let code = field.code;
    let mut x = field.x;
    let at = x.at;
    x.at = at + number::extent_of(d, code, at);
    match code {
        kinds::ID => x.format = id::format_of(d, at),
        kinds::NAME => x.name = at as u32,
        kinds::FREE => x.free = number::number_at(d, code, at),
        kinds::CARDINALITY => x.card = number::number_at(d, code, at),
        kinds::ANCESTORS => x.left = number::number_at(d, code, at),
        kinds::COUNT => x.left = number::number_at(d, code, at),
        kinds::ANCESTOR => {
            if descriptor_references::is_deciding(field) {
                x.format = descriptor_references::format_at(
                    earlier,
                    number::number_at(d, code, at),
                );
            }
        }
        _ => {}
    }
    x
}

// A field.
pub fn read(earlier: Earlier, field: Field, elements: &mut [u32]) -> Result<Draft, Fault>
    requires { (Roomy elements.old (field.x.count + push field.code)) × (field.x.at ≤ length earlier.d.now) × (field.x.left ≤ 512) }
    ensures elements_after { walk_of result elements.new
        ≡ led (reading.field earlier.entry.d.now (before earlier.entry) field.tag field.code field.x (elements_of elements.old field.x.count)) }
    ensures inside { Inside (length earlier.entry.d.now) (field.x.count + push field.code) result }
{
    let at = field.x.at;
    if earlier.d.len() < at + number::extent_of(earlier.d, field.code, at) {
        return Err(Fault::DESCRIPTOR_END);
    }
    check(earlier, field, elements)?;
    if kinds::ELEMENT <= field.code {
        return Ok(keep_element(earlier, field, elements));
    }
    Ok(keep(earlier, field))
}
