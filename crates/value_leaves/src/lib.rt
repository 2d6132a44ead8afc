// Elements that are leaves, as most are: a loop over them spares each the calls of the walk. It ends before the first element that is no
// leaf, not there or not permitted, and there the walk goes on. So nothing is refused here, and how far a stretch goes is a matter of
// time alone: what is left after it leads to the same place.
#![tactic(auto)]

ghost use Rattle.std.specs.Prelude.{◌≡◌, ◌+◌, ◌*◌, ◌^◌, ◌<◌, ◌≤◌, length, take, drop, get_or, true, IfSome};
ghost use Rattle.std.proofs.Math.Option.{some};
ghost use Rattle.value_parts.specs.Walk.{Holds, leaf_good, leaf_kind};
ghost use Rattle.value_leaves.specs.Leaves.{fixed_of, FixedAt, told_size, told_of, ToldAt, Ordered, Stretched, leaf_at, fixed_leaf, given_at, Gathers, gap_of};
ghost use Rattle.protocol.specs.Nodes.{ref_at};
ghost use Rattle.protocol.specs.Plans.{look};
ghost use Rattle.plan_nodes.specs.Readers.{At};

use forms::{Head, Span};
use value_heads::sparse::Seen;
use value_parts::{Gathered, entry, node};

// Where a stretch of elements ends: how many of the container's elements are left, where the next one's head stands, and the words of the
// list so far.
#[derive(Clone, Copy)]
pub struct Stretch {
    pub left: usize,
    pub pos: usize,
    pub at: usize,
}

// An element of a sparse object that is a leaf, is there and is permitted.
#[derive(Clone, Copy)]
pub struct Given {
    pub index: usize,
    pub node: usize,
    pub bytes: Span,
}

// How the values of a leaf are told where they are any bytes of a size, or a time of day.
#[derive(Clone, Copy)]
pub enum Told {
    Size(usize),
    Time,
}

// The size of a leaf whose values are any bytes of that size.
fn fixed_at(plan: &[u32], node: usize) -> Option<usize>
    requires { At plan.now node }
    ensures is { result ≡ fixed_of (look plan.now node) }
    ensures rule { IfSome result (FixedAt plan.now node) }
{
    if plan_nodes::node::kind_at(plan, node) != constants::KIND_LEAF {
        return None;
    }
    match value_scalars::format::fixed_size(plan_nodes::node::second_at(plan, node) as u32) {
        0 => None,
        size => Some(size),
    }
}

// How the values of a leaf are told; of another node, nothing.
fn told_at(plan: &[u32], node: usize) -> Option<Told>
    requires { At plan.now node }
    ensures is { result ≡ told_of (look plan.now node) }
    ensures rule { IfSome result (ToldAt plan.now node) }
{
    if plan_nodes::node::kind_at(plan, node) == constants::KIND_LEAF
        && plan_nodes::node::second_at(plan, node) as u32 == constants::FORMAT_LOCAL_TIME
    {
        return Some(Told::Time);
    }
    let size = fixed_at(plan, node)?;
    Some(Told::Size(size))
}

impl Told {
    // The size of values that are so told.
    fn size(self) -> usize
        ensures { result ≡ told_size self }
    {
        match self {
            Told::Size(size) => size,
            Told::Time => 8,
        }
    }
}

// The element at `pos`, its length before it, where it is so told and permitted.
fn fixed_leaf(part: &[u8], pos: usize, told: Told) -> Option<Span>
    requires { (pos ≤ length part.now) × (told_size told ≤ 16) }
    ensures { result ≡ fixed_leaf part.now pos told }
{
    let len = told.size();
    if part.len() - pos < len + 4 || wire::be::u32_at(part, pos) != len as u32 {
        return None;
    }
    let start = pos + 4;
    match told {
        Told::Size(_) => Some(Span { start, len }),
        Told::Time if value_scalars::in_day(part, start) => Some(Span { start, len }),
        Told::Time => None,
    }
}

// Elements of a set or an array, which share the node `child` and are all told by it.
fn same_leaves(
    plan: &[u32],
    node: usize,
    child: usize,
    told: Told,
    count: usize,
    first: usize,
    base: usize,
    from: usize,
    part: &[u8],
    list: &mut [u32],
    at: usize,
) -> Stretch
    requires { (At plan.now node) × (get_or plan.now node 0 ≡ 2) × (first + count < 2 ^ 32) × (base + length part.now ≤ 65535)
        × (from ≤ length part.now) × (4 * at ≤ 5 * (base + from) + 20) × (ref_at (look plan.now node) first ≡ some child) × (ToldAt plan.now child told) }
    ensures { Stretched plan.now node base part.now (first + count) count first from at list.old result.left result.pos result.at list.new }
{
    let end = first + count;
    let mut pos = from;
    let mut to = at;
    for i in first..end {
        let Some(Span { start, len }) = fixed_leaf(part, pos, told) else {
            let left = end - i;
            return Stretch { left, pos, at: to };
        };
        entry::put_entry(list, to, child, i, base + start, len, 0);
        to += constants::ENTRY_WORDS;
        pos = start + len;
    }
    Stretch {
        left: 0,
        pos,
        at: to,
    }
}

// Whether a leaf of `size` bytes from `start` on is permitted. A fixed size is told without the call of a function that knows all formats.
fn is_good(plan: &[u32], node: usize, kind: u32, part: &[u8], start: usize, size: usize) -> bool
    requires { (At plan.now node) × (kind ≡ get_or plan.now node 0) × (leaf_kind kind ≡ true) × (start + size ≤ length part.now) }
    ensures { result ≡ leaf_good (look plan.now node) (take size (drop start part.now)) }
{
    match fixed_at(plan, node) {
        Some(fixed) => size == fixed,
        None => node::leaf_ok(plan, node, kind, &part[start..start + size]),
    }
}

// How many reserved bytes stand before an element's length: four in a tuple or an object.
fn gap_of(kind: u32) -> usize
    ensures { result ≡ gap_of kind }
{
    if kind == constants::KIND_TUPLE || kind == constants::KIND_OUTPUT_OBJECT {
        4
    } else {
        0
    }
}

// The element at `pos`, its length after `gap` reserved bytes, where it is there, is a leaf and is permitted. A negative length is, without
// its sign, larger than what is left, so one test tells both: a row is listed in an eighth less of the time.
fn leaf_at(plan: &[u32], child: usize, part: &[u8], gap: usize, pos: usize) -> Option<Span>
    requires { (At plan.now child) × (pos ≤ length part.now) × (length part.now ≤ 65535) × (gap ≤ 16) }
    ensures { result ≡ leaf_at (look plan.now child) part.now gap pos }
{
    let kind = plan_nodes::node::kind_at(plan, child);
    if !node::is_leaf(kind) || part.len() - pos < gap + 4 {
        return None;
    }
    let field = pos + gap;
    let start = field + 4;
    let len = wire::be::u32_at(part, field) as usize;
    if part.len() - start < len || !is_good(plan, child, kind, part, start, len) {
        return None;
    }
    Some(Span { start, len })
}

// Elements of any container but a set of arrays, each with the node that its index has.
// Kept for speed: a loop of its own beside that of `same_leaves`, so that an element is read without a call in both.
fn other_leaves(
    plan: &[u32],
    node: usize,
    count: usize,
    first: usize,
    base: usize,
    from: usize,
    part: &[u8],
    list: &mut [u32],
    at: usize,
) -> Stretch
    requires { (Ordered plan.now node) × (get_or plan.now node 0 ≡ 3 → ⊥) × (Holds (look plan.now node) (first + count))
        × (first + count < 2 ^ 32) × (base + length part.now ≤ 65535) × (from ≤ length part.now) × (4 * at ≤ 5 * (base + from) + 20) }
    ensures { Stretched plan.now node base part.now (first + count) count first from at list.old result.left result.pos result.at list.new }
{
    let gap = gap_of(plan_nodes::node::kind_at(plan, node));
    let end = first + count;
    let mut pos = from;
    let mut to = at;
    for i in first..end {
        let child = plan_nodes::node::ref_of(plan, node, i);
        let Some(Span { start, len }) = leaf_at(plan, child, part, gap, pos) else {
            let left = end - i;
            return Stretch { left, pos, at: to };
        };
        entry::put_entry(list, to, child, i, base + start, len, 0);
        to += constants::ENTRY_WORDS;
        pos = start + len;
    }
    Stretch {
        left: 0,
        pos,
        at: to,
    }
}

// A stretch of leaves in a container whose elements come in order.
pub fn walk_leaves(
    plan: &[u32],
    node: usize,
    count: usize,
    first: usize,
    base: usize,
    from: usize,
    part: &[u8],
    list: &mut [u32],
    at: usize,
) -> Stretch
    requires { (Ordered plan.now node) × (Holds (look plan.now node) (first + count)) × (first + count < 2 ^ 32)
        × (base + length part.now ≤ 65535) × (from ≤ length part.now) × (4 * at ≤ 5 * (base + from) + 20) }
    ensures { Stretched plan.now node base part.now (first + count) count first from at list.old result.left result.pos result.at list.new }
{
    let kind = plan_nodes::node::kind_at(plan, node);
    if kind == constants::KIND_SET_OF_ARRAYS {
        return Stretch {
            left: count,
            pos: from,
            at,
        };
    }
    if kind == constants::KIND_SET_OR_ARRAY {
        let child = plan_nodes::node::ref_of(plan, node, first);
        if let Some(told) = told_at(plan, child) {
            return same_leaves(
                plan, node, child, told, count, first, base, from, part, list, at,
            );
        }
    }
    other_leaves(plan, node, count, first, base, from, part, list, at)
}

// The element of a sparse object at `pos`, where its index is known, it is there, is a leaf and is permitted.
fn given_leaf(plan: &[u32], node: usize, part: &[u8], pos: usize) -> Option<Given>
    requires { (At plan.now node) × (get_or plan.now node 0 ≡ 6) × (pos ≤ length part.now) }
    ensures { result ≡ given_at plan.now node part.now pos }
{
    let Ok(index) = node::index_at(plan, node, part, pos) else {
        return None;
    };
    let Ok(head) = node::sparse_head(plan, node, part, index, pos) else {
        return None;
    };
    let Head::Present {
        index: _,
        start,
        size,
    } = head
    else {
        return None;
    };
    let child = plan_nodes::node::ref_of(plan, node, index);
    let kind = plan_nodes::node::kind_at(plan, child);
    if !node::is_leaf(kind) || !is_good(plan, child, kind, part, start, size) {
        return None;
    }
    Some(Given {
        index,
        node: child,
        bytes: Span { start, len: size },
    })
}

// The leaves that a sparse object starts with: in most such objects, all of its elements. Their indexes are marked at the end, all at once,
// since each method of the set of seen indexes copies it. No more are taken than a shape has elements: with one more an index is given
// twice. If the set says that one was, the object is refused.
pub fn sparse_leaves(
    plan: &[u32],
    node: usize,
    count: usize,
    base: usize,
    from: usize,
    part: &[u8],
    list: &mut [u32],
    at: usize,
) -> Gathered
    requires { (At plan.now node) × (get_or plan.now node 0 ≡ 6) × (base + length part.now ≤ 65535) × (from ≤ length part.now) × (4 * at ≤ 5 * (base + from) + 20) }
    ensures { Gathers plan.now node base part.now count from at list.old result.seen.marks
        result.seen.twice result.given result.left result.pos result.at list.new }
{
    let most = wire::copy::least(count, constants::MOST_ITEMS);
    let mut n: usize = 0;
    let mut given: usize = 0;
    let mut pos = from;
    let mut to = at;
    while n < most {
        let Some(
            Given {
                index,
                node: child,
                bytes,
            },
        ) = given_leaf(plan, node, part, pos)
        else {
            break;
        };
        n += 1;
        given = node::count_given(plan, node, index, given);
        entry::put_entry(list, to, child, index, base + bytes.start, bytes.len, 0);
        to += constants::ENTRY_WORDS;
        pos = bytes.start + bytes.len;
    }
    if n == 0 {
        return Gathered::new(Seen::new(), given, count, pos, to);
    }
    let seen = Seen::new().mark_elements(part, n, from);
    Gathered::new(seen, given, count - n, pos, to)
}
