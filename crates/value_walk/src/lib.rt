// The walk over a value, which checks it and lists it; stores past the end of the list do nothing, so that a walk with no list only checks
// and counts. The function for a value and those for the elements that are left of a container call each other (R5.2, R9.11). The elements of
// a container are a loop, so that the stack grows with nesting only.
#![tactic(auto)]

ghost use Rattle.std.specs.Prelude.{◌≡◌, true, ◌+◌, ◌*◌, ◌^◌, ◌<◌, ◌≤◌, length, get_or, Ok};
ghost use Rattle.std.proofs.Math.Option.{some};
ghost use Rattle.plan_nodes.specs.Memo.{Memo};
ghost use Rattle.value_parts.specs.Walk.{walk_of, led, leaf_kind, end_step, Within, WithinHead, Container, Holds, HeadIn};
ghost use Rattle.value_parts.specs.Counted.{Counted};
ghost use Rattle.protocol.specs.Nodes.{ref_at};
ghost use Rattle.protocol.specs.Values.{absent, element_outcome, elements, row_form, sparse_form, value_of};
ghost use Rattle.protocol.specs.Plans.{look, cards_at};
ghost use Rattle.plan_nodes.specs.Readers.{At};

use forms::fault::{Fault, Refusal};
use forms::{Head, Opening};
use plan_nodes::needs::Need;
use value_parts::{Gathered, entry, node};

// The length of an element that is absent, as put_entry takes it.
const ABSENT: usize = constants::ABSENT as usize;

// The end of a container's elements: no byte may be left over (21), and no required index may be lacking (27).
fn end_elements(whole: bool, lacking: bool, base: usize, to: usize) -> Result<usize, Refusal>
    requires { base ≤ 65535 }
    ensures { result ≡ end_step whole lacking base to }
{
    if !whole {
        return Err(Fault::VALUE_LEFT.at(base as u32));
    }
    if lacking {
        return Err(Fault::REQUIRED.at(base as u32));
    }
    Ok(to)
}

// A scalar or an enumeration, whose content is permitted or not (24).
fn walk_leaf(
    plan: &[u32],
    node: usize,
    kind: u32,
    index: usize,
    base: usize,
    part: &[u8],
    list: &mut [u32],
    at: usize,
) -> Result<usize, Refusal>
    requires { (At plan.now node) × (kind ≡ get_or plan.now node 0) × (leaf_kind kind ≡ true) × (index < 2 ^ 32) × (base + length part.now ≤ 65535) × (4 * at ≤ 5 * base) }
    ensures { (walk_of result list.new ≡ led (value_of (look plan.now) node index base part.now) at list.old)
        × (Within (base + length part.now) result) }
{
    if node::leaf_ok(plan, node, kind, part) {
        entry::put_entry(list, at, node, index, base, part.len(), 0);
        return Ok(at + constants::ENTRY_WORDS);
    }
    Err(Fault::BAD_SCALAR.at(base as u32))
}

// An element of length -1, which is listed with the length of all ones and nothing below it.
fn walk_absent(node: usize, index: usize, start: usize, list: &mut [u32], at: usize) -> usize
    requires { (node < 2 ^ 32) × (index < 2 ^ 32) × (start ≤ 65535) × (at ≤ 131072) }
    ensures list_after { walk_of (Ok result) list.new ≡ led (absent (some node) index start) at list.old }
    ensures within { result ≡ at + 5 }
{
    entry::put_entry(list, at, node, index, start, ABSENT, 0);
    at + constants::ENTRY_WORDS
}

// The part as a value of a node; places count from `base`, and `index` is its own in its parent. `needs` says how many elements of the
// plan's sparse objects are required.
#[cycle(walk_container_walk_member_walk_row_walk_sparse_walk_value)]
pub fn walk_value(
    plan: &[u32],
    needs: &[Need],
    node: usize,
    index: usize,
    base: usize,
    part: &[u8],
    list: &mut [u32],
    at: usize,
) -> Result<usize, Refusal>
    requires { (At plan.now node) × (index < 2 ^ 32) × (base + length part.now ≤ 65535) × (4 * at ≤ 5 * base) × (Memo plan.now needs.now) }
    ensures { (walk_of result list.new ≡ led (value_of (look plan.now) node index base part.now) at list.old)
        × (Within (base + length part.now) result) }
{
    let kind = plan_nodes::node::kind_at(plan, node);
    if node::is_leaf(kind) {
        return walk_leaf(plan, node, kind, index, base, part, list, at);
    }
    walk_container(plan, needs, node, kind, index, base, part, list, at)
}

// The part as a value of a container. By itself, and not at the end of `walk_value`, it leaves the compiler a shorter way for a leaf, as
// most values are: a twentieth of a set's time.
#[cycle(walk_container_walk_member_walk_row_walk_sparse_walk_value)]
fn walk_container(
    plan: &[u32],
    needs: &[Need],
    node: usize,
    kind: u32,
    index: usize,
    base: usize,
    part: &[u8],
    list: &mut [u32],
    at: usize,
) -> Result<usize, Refusal>
    requires { (At plan.now node) × (index < 2 ^ 32) × (base + length part.now ≤ 65535) × (4 * at ≤ 5 * base) × (Memo plan.now needs.now) × (Container plan.now node kind) }
    ensures { (walk_of result list.new ≡ led (value_of (look plan.now) node index base part.now) at list.old)
        × (Within (base + length part.now) result) }
{
    let opened = node::open_node(plan, node, kind, part);
    let Ok(opening) = opened else {
        return Err(opened.unwrap_err().at(base as u32));
    };
    let Opening {
        count,
        first,
        at: from,
    } = opening;
    entry::put_entry(list, at, node, index, base, part.len(), count);
    let to = at + constants::ENTRY_WORDS;
    if kind == constants::KIND_INPUT_OBJECT {
        let run = value_leaves::sparse_leaves(plan, node, count, base, from, part, list, to);
        if run.seen.twice {
            return Err(Fault::INDEX_TWICE.at(base as u32));
        }
        return walk_sparse(plan, needs, node, base, part, run, list);
    }
    walk_row(plan, needs, node, count, first, base, from, part, list, to)
}

// Elements in the order of their indexes: a stretch of leaves, and then by turns an element of another kind and the leaves after it.
#[cycle(walk_container_walk_member_walk_row_walk_sparse_walk_value)]
fn walk_row(
    plan: &[u32],
    needs: &[Need],
    node: usize,
    count: usize,
    first: usize,
    base: usize,
    from: usize,
    part: &[u8],
    list: &mut [u32],
    at: usize,
) -> Result<usize, Refusal>
    requires { (At plan.now node) × (Container plan.now node (get_or plan.now node 0)) × (get_or plan.now node 0 ≡ 6 → ⊥)
        × (Holds (look plan.now node) (first + count)) × (first + count < 2 ^ 32) × (base + length part.now ≤ 65535)
        × (from ≤ length part.now) × (4 * at ≤ 5 * (base + from) + 20) × (Memo plan.now needs.now) }
    ensures { (walk_of result list.new
        ≡ led (elements (row_form (look plan.now node) part.now) (value_of (look plan.now))
        (ref_at (look plan.now node)) base part.now count first from) at
        list.old)
        × (Within (base + length part.now) result) }
{
    let kind = plan_nodes::node::kind_at(plan, node);
    let end = first + count;
    let mut run = value_leaves::walk_leaves(plan, node, count, first, base, from, part, list, at);
    while 0 < run.left {
        let i = end - run.left;
        let read = node::row_head(plan, node, kind, part, i, run.pos);
        let Ok(head) = read else {
            return Err(read.unwrap_err().at(base as u32));
        };
        let next = walk_member(plan, needs, node, base, part, head, run.pos, list, run.at)?;
        let after = value_heads::parts::end_of(head);
        let left = run.left - 1;
        run = value_leaves::walk_leaves(plan, node, left, i + 1, base, after, part, list, next);
    }
    end_elements(run.pos == part.len(), false, base, run.at)
}

// The elements that are left after the leaves that a sparse object starts with, in any order, each with its index; none is given twice, and
// none that is required is left out.
#[cycle(walk_container_walk_member_walk_row_walk_sparse_walk_value)]
fn walk_sparse(
    plan: &[u32],
    needs: &[Need],
    node: usize,
    base: usize,
    part: &[u8],
    run: Gathered,
    list: &mut [u32],
) -> Result<usize, Refusal>
    requires { (At plan.now node) × (get_or plan.now node 0 ≡ 6) × (base + length part.now ≤ 65535) × (run.pos ≤ length part.now)
        × (4 * run.at ≤ 5 * (base + run.pos) + 20) × (Memo plan.now needs.now)
        × (Counted plan.now node run.seen.marks run.given) }
    ensures { (walk_of result list.new
        ≡ led (elements (sparse_form (cards_at plan.now node) part.now) (value_of (look plan.now))
        (ref_at (look plan.now node)) base part.now run.left run.seen.marks run.pos)
        run.at list.old)
        × (Within (base + length part.now) result) }
{
    let mut seen = run.seen;
    let mut given = run.given;
    let mut pos = run.pos;
    let mut to = run.at;
    for _ in 0..run.left {
        let index = node::index_at(plan, node, part, pos);
        let Ok(i) = index else {
            return Err(index.unwrap_err().at(base as u32));
        };
        seen = seen.mark(i);
        if seen.twice {
            return Err(Fault::INDEX_TWICE.at(base as u32));
        }
        given = node::count_given(plan, node, i, given);
        let read = node::sparse_head(plan, node, part, i, pos);
        let Ok(head) = read else {
            return Err(read.unwrap_err().at(base as u32));
        };
        to = walk_member(plan, needs, node, base, part, head, pos, list, to)?;
        pos = value_heads::parts::end_of(head);
    }
    let lacking = given < plan_nodes::needs::needed_of(plan, needs, node);
    end_elements(pos == part.len(), lacking, base, to)
}

// The element with a head that was read at `pos`.
#[cycle(walk_container_walk_member_walk_row_walk_sparse_walk_value)]
fn walk_member(
    plan: &[u32],
    needs: &[Need],
    node: usize,
    base: usize,
    part: &[u8],
    head: Head,
    pos: usize,
    list: &mut [u32],
    at: usize,
) -> Result<usize, Refusal>
    requires { (At plan.now node) × (base + length part.now ≤ 65535) × (HeadIn (look plan.now node) (length part.now) pos head)
        × (4 * at ≤ 5 * (base + pos) + 20) × (Memo plan.now needs.now) }
    ensures { (walk_of result list.new
        ≡ led (element_outcome (value_of (look plan.now)) (ref_at (look plan.now node)) base part.now (Ok head)) at list.old)
        × (WithinHead base head result) }
{
    let Head::Present { index, start, size } = head else {
        let Head::Absent { index, start } = head else {
            unreachable!();
        };
        let node = plan_nodes::node::ref_of(plan, node, index);
        return Ok(walk_absent(node, index, base + start, list, at));
    };
    let child = plan_nodes::node::ref_of(plan, node, index);
    let kind = plan_nodes::node::kind_at(plan, child);
    let end = start + size;
    let bytes = &part[start..end];
    let place = base + start;
    if node::is_leaf(kind) {
        return walk_leaf(plan, child, kind, index, place, bytes, list, at);
    }
    walk_value(plan, needs, child, index, place, bytes, list, at)
}
