// A container's own head, by the kind of the container. The reserved bytes in it are zero. It stands at most at 65,551: an element's data
// is built behind its head of up to 16 bytes, before it is known whether that fits.
ghost use Rattle.std.specs.Prelude.{◌≡◌, ◌≤◌};
ghost use Rattle.value_parts.specs.Walk.{Container};
ghost use Rattle.supply_entries.specs.Emitting.{claim, begin_at, beginning_of};
ghost use Rattle.protocol.specs.Numbers.{bytes_be};
ghost use Rattle.protocol.specs.Plans.{look};
ghost use Rattle.plan_nodes.specs.Readers.{At};
ghost use Rattle.protocol.specs.Building.{front, set_bytes, range_front, front_of};

use crate::head::{put_byte, put_pair, put_word};
use crate::{Entry, Opened};

// A set or an array: no dimension where it is empty; else one, with as many elements as it says, and the lower bound 1.
fn set_front(count: u32, out: &mut [u8], at: usize) -> Option<Opened>
    requires { at ≤ 65551 }
    ensures { beginning_of result out.new ≡ begin_at (front (set_bytes count) 0) at out.old }
{
    if count == 0 {
        if constants::MOST_VALUE < at + 12 {
            return None;
        }
        put_pair(0, 0, out, at);
        put_word(0, out, at + 8);
        return Some(Opened {
            first: 0,
            at: at + 12,
        });
    }
    if constants::MOST_VALUE < at + 20 {
        return None;
    }
    put_pair(1, 0, out, at);
    put_pair(0, count, out, at + 8);
    put_word(1, out, at + 16);
    Some(Opened {
        first: 0,
        at: at + 20,
    })
}

// A tuple or an object, sparse or not: the number of its elements.
fn count_front(count: u32, out: &mut [u8], at: usize) -> Option<Opened>
    requires { at ≤ 65551 }
    ensures { beginning_of result out.new ≡ begin_at (front (bytes_be 4 count) 0) at out.old }
{
    if constants::MOST_VALUE < at + 4 {
        return None;
    }
    put_word(count, out, at);
    Some(Opened {
        first: 0,
        at: at + 4,
    })
}

// A range: its flags, which lie at its start in the source and must be known and promise as many bounds as the entry has below it.
fn range_front(src: &[u8], entry: Entry, out: &mut [u8], at: usize) -> Option<Opened>
    requires { at ≤ 65551 }
    ensures { beginning_of result out.new ≡ begin_at (range_front src.now (claim entry)) at out.old }
{
    let s = entry.start as usize;
    let flags = src.get(s..s + 1)?;
    let opening = value_openings::range_opening(flags).ok()?;
    if entry.count as usize != opening.count || constants::MOST_VALUE <= at {
        return None;
    }
    put_byte(flags[0], out, at);
    Some(Opened {
        first: opening.first,
        at: at + 1,
    })
}

// The head of a container. Where the descriptor says how many elements there are, the entry must have as many below it.
pub fn put_front(
    plan: &[u32],
    node: usize,
    kind: u32,
    src: &[u8],
    entry: Entry,
    out: &mut [u8],
    at: usize,
) -> Option<Opened>
    requires { (At plan.now node) × (Container plan.now node kind) × (at ≤ 65551) }
    ensures { beginning_of result out.new ≡ begin_at (front_of (look plan.now node) src.now (claim entry)) at out.old }
{
    match kind {
        constants::KIND_RANGE => range_front(src, entry, out, at),
        constants::KIND_SET_OR_ARRAY | constants::KIND_SET_OF_ARRAYS => {
            set_front(entry.count, out, at)
        },
        constants::KIND_INPUT_OBJECT => count_front(entry.count, out, at),
        _ if entry.count as usize == plan_nodes::node::second_at(plan, node) => {
            count_front(entry.count, out, at)
        },
        _ => None,
    }
}
