// A block: fields, a run of items that they count, and once more.
ghost use Rattle.std.specs.Prelude.{◌≡◌, ◌+◌, ◌*◌, ◌≤◌, length};
ghost use Rattle.descriptor_fields.specs.Layouts.{up_to_end};
ghost use Rattle.descriptor_blocks.specs.Blocks as reading;
ghost use Rattle.descriptor_blocks.specs.Blocks.{block_from};
ghost use Rattle.descriptor_fields.specs.Arrays.{Roomy, elements_of};
ghost use Rattle.descriptor_fields.specs.Earlier.{before};
ghost use Rattle.descriptor_blocks.specs.Walks.{pushes, led, walk_of, Inside};

use crate::field;
use descriptor_fields::earlier::Earlier;
use descriptor_fields::{Draft, Field, kinds};
use forms::fault::Fault;

// Fields of the given kinds, up to the first END.
fn fields(
    earlier: Earlier,
    tag: u32,
    codes: &[u8],
    x: Draft,
    elements: &mut [u32],
) -> Result<Draft, Fault>
    requires { (Roomy elements.old (x.count + pushes (up_to_end codes.now))) × (x.at ≤ length earlier.d.now) × (x.left ≤ 512) }
    ensures elements_after { walk_of result elements.new
        ≡ led (reading.fields earlier.entry.d.now (before earlier.entry) tag (up_to_end codes.now) x (elements_of elements.old x.count)) }
    ensures inside { Inside (length earlier.entry.d.now) (x.count + pushes (up_to_end codes.now)) result }
{
    let mut y = x;
    for &code in codes {
        if code == kinds::END {
            return Ok(y);
        }
        y = field::read(earlier, Field { tag, code, x: y }, elements)?;
    }
    Ok(y)
}

// The items of a run, each with fields of the given kinds.
fn items(
    earlier: Earlier,
    tag: u32,
    codes: &[u8],
    x: Draft,
    elements: &mut [u32],
) -> Result<Draft, Fault>
    requires { (Roomy elements.old (x.count + x.left * pushes (up_to_end codes.now))) × (x.at ≤ length earlier.d.now) × (x.left ≤ 512) }
    ensures elements_after { walk_of result elements.new
        ≡ led (reading.items earlier.entry.d.now (before earlier.entry) tag (up_to_end codes.now) x.left x (elements_of elements.old x.count)) }
    ensures inside { Inside (length earlier.entry.d.now) (x.count + x.left * pushes (up_to_end codes.now)) result }
{
    let mut y = x;
    for done in 0..x.left {
        y.left = x.left - done;
        y = fields(earlier, tag, codes, y, elements)?;
    }
    Ok(y)
}

// Fields, and the items that they count.
fn section(
    earlier: Earlier,
    tag: u32,
    codes: &[u8],
    each: &[u8],
    mut x: Draft,
    elements: &mut [u32],
) -> Result<Draft, Fault>
    requires { (Roomy elements.old (x.count + pushes (up_to_end codes.now) + 512 * pushes (up_to_end each.now))) × (x.at ≤ length earlier.d.now) }
    ensures elements_after { walk_of result elements.new
        ≡ led (reading.section earlier.entry.d.now (before earlier.entry) tag (up_to_end codes.now)
        (up_to_end each.now) x (elements_of elements.old x.count)) }
    ensures inside { Inside (length earlier.entry.d.now) (x.count + pushes (up_to_end codes.now) + 512 * pushes (up_to_end each.now)) result }
{
    x.left = 0;
    let y = fields(earlier, tag, codes, x, elements)?;
    items(earlier, tag, each, y, elements)
}

// The block whose tag stands before a place.
pub fn read(earlier: Earlier, tag: u32, at: usize, elements: &mut [u32]) -> Result<Draft, Fault>
    requires { (Roomy elements.old 0) × (at ≤ length earlier.d.now) }
    ensures elements_after { walk_of result elements.new ≡ led (block_from earlier.entry.d.now (before earlier.entry) tag at) }
    ensures inside { Inside (length earlier.entry.d.now) 512 result }
{
    let x = Draft {
        at,
        left: 0,
        free: 0,
        format: None,
        height: 1,
        card: 0,
        name: 0,
        count: 0,
    };
    let layout = kinds::layout_of(tag);
    let y = section(earlier, tag, &layout.head, &layout.first, x, elements)?;
    section(earlier, tag, &layout.more, &layout.last, y, elements)
}
