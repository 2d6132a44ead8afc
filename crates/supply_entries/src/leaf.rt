// The elements of a container that are leaves, as most are. They are put out by a loop that calls nothing that calls it, so that the
// compiler keeps what it needs in registers. It stops at the first element that is not a leaf or that has a fault: what that one is, is
// for the walk to say.
ghost use Rattle.std.specs.Prelude.{◌≡◌, ◌-◌, ◌^◌, ◌<◌, ◌≤◌, length, drop, get_or};
ghost use Rattle.std.proofs.lemmas.List.Edits.{sets};
ghost use Rattle.plan_nodes.specs.Readers.{Refers, KindAt, At};
ghost use Rattle.value_parts.specs.Walk.{leaf_good, Container, Holds};
ghost use Rattle.supply_entries.specs.Emitting.{head_of, put_at, LeafPut, GathersNew, GathersRun};
ghost use Rattle.protocol.specs.Plans.{look};
ghost use Rattle.protocol.specs.Building.{row_order, elements_made, build_of};

use crate::{Entry, Gathered, Place, head, list};
use value_heads::sparse::Seen;

// Whether a node is a leaf and the bytes of a part are permitted in it. Of most formats the size alone counts.
fn leaf_fits(plan: &[u32], node: usize, part: &[u8]) -> bool
    requires { At plan.now node }
    ensures { result ≡ leaf_good (look plan.now node) part.now }
{
    let kind = plan_nodes::node::kind_at(plan, node);
    if kind == constants::KIND_LEAF {
        let size = value_scalars::format::fixed_size(
            plan_nodes::node::second_at(plan, node) as u32,
        );
        if 0 < size {
            return part.len() == size;
        }
    }
    value_parts::node::is_leaf(kind) && value_parts::node::leaf_ok(plan, node, kind, part)
}

// The head of a leaf. That of a set's or an array's (2) is its length alone, which is put out without a call.
fn put_head(kind: u32, index: u32, n: u32, out: &mut [u8], at: usize)
    requires { (at ≤ 65535) × (kind ≡ 3 → n ≤ 65535) }
    ensures { out.new ≡ sets out.old at (head_of kind index n) }
{
    if kind == constants::KIND_SET_OR_ARRAY {
        head::put_word(n, out, at);
    } else {
        head::put_head(kind, index, n, out, at);
    }
}

// Puts out the element of an entry with its head, where it is a leaf, fits and is permitted, and says how many bytes that is.
fn put_leaf(
    plan: &[u32],
    node: usize,
    kind: u32,
    src: &[u8],
    entry: Entry,
    out: &mut [u8],
    at: usize,
) -> Option<usize>
    requires { (At plan.now node) × (Container plan.now node kind) × (Refers (look plan.now node) entry.index) × (at ≤ 65535) }
    ensures { LeafPut src.now plan.now node kind entry at out.old result out.new }
{
    let child = plan_nodes::node::ref_of(plan, node, entry.index as usize);
    if entry.node as usize != child || entry.count != 0 {
        return None;
    }
    let s = entry.start as usize;
    let head = head::head_size(kind);
    let size = head + entry.size as usize;
    if constants::MOST_VALUE < at + size {
        return None;
    }
    let part = src.get(s..s + entry.size as usize)?;
    if !leaf_fits(plan, child, part) {
        return None;
    }
    wire::copy::put_bytes(part, out, at + head);
    put_head(kind, entry.index, entry.size, out, at);
    Some(size)
}

// Puts out the elements with the indexes from `first` up to `end`, as far as they are leaves, and says where that ends.
pub fn put_leaves(
    plan: &[u32],
    node: usize,
    kind: u32,
    src: &[u8],
    list: &[u32],
    first: usize,
    end: usize,
    word: usize,
    out: &mut [u8],
    at: usize,
) -> Place
    requires { (At plan.now node) × (KindAt plan.now node kind) × (Holds (look plan.now node) end) × (first ≤ end) × (end < 2 ^ 34) × (at ≤ 65535) }
    ensures { (first ≤ result.index) × (result.index ≤ end) × (result.at ≤ 65535)
        × (put_at (elements_made row_order (build_of src.now (look plan.now)) (look plan.now node) (end - first) first (drop word list.now)) at
        out.old
        ≡ put_at (elements_made row_order (build_of src.now (look plan.now)) (look plan.now node) (end - result.index) result.index (drop result.word list.now))
        result.at out.new) }
{
    let mut place = Place {
        index: first,
        word,
        at,
    };
    for index in first..end {
        let Some(entry) = list::next_entry(list, place.word) else {
            break;
        };
        if entry.index as usize != index {
            break;
        }
        let Some(size) = put_leaf(plan, node, kind, src, entry, out, place.at) else {
            break;
        };
        place = Place {
            index: index + 1,
            word: place.word + constants::ENTRY_WORDS,
            at: place.at + size,
        };
    }
    place
}

// A stretch of leaves in a sparse object: how many, how many of those are required, the next word of the list and the next byte of the output.
#[derive(Clone, Copy)]
struct Run {
    count: usize,
    given: usize,
    word: usize,
    at: usize,
}

// Puts out the elements that a sparse object starts with, of a number that are left, as far as they are leaves. No more are taken than a shape
// has elements: with one more an index is given twice.
fn put_run(
    plan: &[u32],
    node: usize,
    src: &[u8],
    list: &[u32],
    count: usize,
    word: usize,
    out: &mut [u8],
    at: usize,
) -> Run
    requires { (At plan.now node) × (get_or plan.now node 0 ≡ 6) × (at ≤ 65535) × (word ≤ length list.now) }
    ensures { (result.count ≤ count) × GathersRun src.now plan.now node count list.now word at out.old
        result.count result.given result.word result.at out.new }
{
    let known = plan_nodes::node::second_at(plan, node);
    let mut run = Run {
        count: 0,
        given: 0,
        word,
        at,
    };
    for n in 0..count.min(constants::MOST_ITEMS) {
        let Some(entry) = list::known_entry(list, run.word, known) else {
            break;
        };
        let put = put_leaf(
            plan,
            node,
            constants::KIND_INPUT_OBJECT,
            src,
            entry,
            out,
            run.at,
        );
        let Some(size) = put else {
            break;
        };
        run = Run {
            count: n + 1,
            given: value_parts::node::count_given(plan, node, entry.index as usize, run.given),
            word: run.word + constants::ENTRY_WORDS,
            at: run.at + size,
        };
    }
    run
}

// The leaves that a sparse object starts with: in most such objects, all of its elements. Their indexes are marked at the end, all at once,
// since each method of the set of seen indexes copies it. If the set says that one was given twice, the object is refused.
pub fn put_given(
    plan: &[u32],
    node: usize,
    src: &[u8],
    list: &[u32],
    count: usize,
    word: usize,
    out: &mut [u8],
    at: usize,
) -> Gathered
    requires { (At plan.now node) × (get_or plan.now node 0 ≡ 6) × (at ≤ 65535) × (word ≤ length list.now) }
    ensures { GathersNew src.now plan.now node count (drop word list.now) at out.old
        result.seen.marks result.seen.twice result.given result.left (drop result.word list.now) result.at out.new }
{
    let run = put_run(plan, node, src, list, count, word, out, at);
    let mut seen = Seen::new();
    if run.count != 0 {
        seen = seen.mark_entries(list, run.count, word + list::INDEX, constants::ENTRY_WORDS);
    }
    Gathered {
        seen,
        given: run.given,
        left: count - run.count,
        word: run.word,
        at: run.at,
    }
}
