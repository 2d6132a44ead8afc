// Builds a value from a supply: a value and its container's elements call each other. The elements of a container are a loop, so that the
// stack grows with nesting only. Whatever the list claims, nothing is looked at that would pass the largest value.
#![tactic(auto)]

ghost use Rattle.std.specs.Prelude.{◌≡◌, true, List, ℕ, ◌+◌, ◌^◌, ◌<◌, ◌≤◌, length, get_or, drop};
ghost use Rattle.plan_nodes.specs.Memo.{Memo};
ghost use Rattle.plan_nodes.specs.Readers.{Refers, At};
ghost use Rattle.value_parts.specs.Walk.{leaf_kind, leaf_good, Container, Holds};
ghost use Rattle.value_parts.specs.Counted.{Counted};
ghost use Rattle.supply_entries.specs.Emitting.{claim, put_at, stand_of};
ghost use Rattle.protocol.specs.Constants.{ABSENT};
ghost use Rattle.protocol.specs.Nodes.{ref_at};
ghost use Rattle.protocol.specs.Plans.{look, cards_at};
ghost use Rattle.protocol.specs.Supplies.{next_of, next};
ghost use Rattle.protocol.specs.Building.{leaf_made, may_lack, absent_made, part_made, row_order, sparse_order, elements_made, build_of};

use plan_nodes::needs::Need;
use supply_entries::{Built, Entry, Gathered, front, head, leaf, list};

// A scalar or an enumeration: its bytes must lie inside the source and be permitted, and no entries are below it. The size is tested
// before the bytes are looked at.
fn build_leaf(
    plan: &[u32],
    node: usize,
    kind: u32,
    src: &[u8],
    entry: Entry,
    word: usize,
    out: &mut [u8],
    at: usize,
) -> Option<Built>
    requires { (At plan.now node) × (kind ≡ get_or plan.now node 0) × (leaf_kind kind ≡ true) × (at ≤ 65551) }
    ensures { (ws : List ℕ)
        → stand_of result ws out.new ≡ put_at (leaf_made (leaf_good (look plan.now node)) src.now (claim entry) (drop word ws)) at out.old }
{
    if entry.count != 0 {
        return None;
    }
    let s = entry.start as usize;
    let n = entry.size as usize;
    if constants::MOST_VALUE < at + n {
        return None;
    }
    let part = src.get(s..s + n)?;
    if !value_parts::node::leaf_ok(plan, node, kind, part) {
        return None;
    }
    wire::copy::put_bytes(part, out, at);
    Some(Built { word, at: at + n })
}

// Whether an element may be absent: in an object, where its cardinality does not require it (R5.11), and nowhere else.
fn may_lack(plan: &[u32], node: usize, kind: u32, i: usize) -> bool
    requires { (At plan.now node) × (Container plan.now node kind) × (Refers (look plan.now node) i) }
    ensures { result ≡ may_lack (look plan.now node) i }
{
    match kind {
        constants::KIND_OUTPUT_OBJECT | constants::KIND_INPUT_OBJECT => {
            !value_heads::element::required(plan_nodes::node::card_of(plan, node, i))
        },
        _ => false,
    }
}

// An element of length -1: its head alone, and no entries below it.
fn build_absent(
    plan: &[u32],
    node: usize,
    kind: u32,
    child: usize,
    entry: Entry,
    word: usize,
    out: &mut [u8],
    at: usize,
) -> Option<Built>
    requires { (At plan.now node) × (Container plan.now node kind) × (Refers (look plan.now node) entry.index) × (at ≤ 65535) }
    ensures { (ws : List ℕ) → stand_of result ws out.new ≡ put_at (absent_made (look plan.now node) child (claim entry) (drop word ws)) at out.old }
{
    if !may_lack(plan, node, kind, entry.index as usize) {
        return None;
    }
    if entry.node as usize != child || entry.count != 0 || constants::MOST_VALUE < at + 8 {
        return None;
    }
    head::put_head(kind, entry.index, constants::ABSENT, out, at);
    Some(Built { word, at: at + 8 })
}

// A value of a node, whose entry is at a word of the list and not absent. `needs` says how many elements of the plan's sparse objects are
// required.
#[cycle(build_member_build_row_build_sparse_build_value)]
pub fn build_value(
    plan: &[u32],
    needs: &[Need],
    node: usize,
    src: &[u8],
    list: &[u32],
    entry: Entry,
    word: usize,
    out: &mut [u8],
    at: usize,
) -> Option<Built>
    requires { (At plan.now node) × (next_of (drop word list.now) ≡ next (claim entry) (drop (word + 5) list.now))
        × (entry.size ≡ ABSENT → ⊥) × (word + 5 ≤ length list.now) × (at ≤ 65551) × (Memo plan.now needs.now) }
    ensures { stand_of result list.now out.new
        ≡ put_at (build_of src.now (look plan.now) node entry.index (drop word list.now)) at out.old }
{
    if entry.node as usize != node {
        return None;
    }
    let kind = plan_nodes::node::kind_at(plan, node);
    let below = word + constants::ENTRY_WORDS;
    if value_parts::node::is_leaf(kind) {
        return build_leaf(plan, node, kind, src, entry, below, out, at);
    }
    let opened = front::put_front(plan, node, kind, src, entry, out, at)?;
    let count = entry.count as usize;
    if kind == constants::KIND_INPUT_OBJECT {
        let run = leaf::put_given(plan, node, src, list, count, below, out, opened.at);
        if run.seen.twice {
            return None;
        }
        return build_sparse(plan, needs, node, src, list, run, out);
    }
    build_row(
        plan,
        needs,
        node,
        src,
        list,
        count,
        opened.first,
        below,
        out,
        opened.at,
    )
}

// Elements in the order of their indexes: leaves by the loop that is theirs, and between them the others.
#[cycle(build_member_build_row_build_sparse_build_value)]
fn build_row(
    plan: &[u32],
    needs: &[Need],
    node: usize,
    src: &[u8],
    list: &[u32],
    count: usize,
    first: usize,
    word: usize,
    out: &mut [u8],
    at: usize,
) -> Option<Built>
    requires { (At plan.now node) × (Holds (look plan.now node) (first + count)) × (first + count < 2 ^ 33) × (at ≤ 65535) × (Memo plan.now needs.now) }
    ensures { stand_of result list.now out.new
        ≡ put_at (elements_made row_order (build_of src.now (look plan.now)) (look plan.now node) count first (drop word list.now)) at out.old }
{
    let kind = plan_nodes::node::kind_at(plan, node);
    let end = first + count;
    let mut row = leaf::put_leaves(plan, node, kind, src, list, first, end, word, out, at);
    while row.index < end {
        let entry = list::next_entry(list, row.word)?;
        let i = row.index;
        if entry.index as usize != i {
            return None;
        }
        let built = build_member(plan, needs, node, src, list, entry, row.word, out, row.at)?;
        row = leaf::put_leaves(
            plan,
            node,
            kind,
            src,
            list,
            i + 1,
            end,
            built.word,
            out,
            built.at,
        );
    }
    Some(Built {
        word: row.word,
        at: row.at,
    })
}

// The elements that are left after the leaves that a sparse object starts with, in any order, each with its index; none is given twice, and
// none that is required is left out.
#[cycle(build_member_build_row_build_sparse_build_value)]
fn build_sparse(
    plan: &[u32],
    needs: &[Need],
    node: usize,
    src: &[u8],
    list: &[u32],
    run: Gathered,
    out: &mut [u8],
) -> Option<Built>
    requires { (At plan.now node) × (get_or plan.now node 0 ≡ 6) × (run.at ≤ 65535) × (Memo plan.now needs.now) × (Counted plan.now node run.seen.marks run.given) }
    ensures { stand_of result list.now out.new
        ≡ put_at (elements_made (sparse_order (cards_at plan.now node)) (build_of src.now (look plan.now))
        (look plan.now node) run.left run.seen.marks (drop run.word list.now))
        run.at out.old }
{
    let n = plan_nodes::node::second_at(plan, node);
    let mut seen = run.seen;
    let mut given = run.given;
    let mut built = Built {
        word: run.word,
        at: run.at,
    };
    for _ in 0..run.left {
        let entry = list::known_entry(list, built.word, n)?;
        let i = entry.index as usize;
        seen = seen.mark(i);
        if seen.twice {
            return None;
        }
        given = value_parts::node::count_given(plan, node, i, given);
        built = build_member(
            plan, needs, node, src, list, entry, built.word, out, built.at,
        )?;
    }
    if given < plan_nodes::needs::needed_of(plan, needs, node) {
        return None;
    }
    Some(built)
}

// The element whose entry is at a word of the list. Its head has the length of its data, which is known once that was built, so the head is
// put before the data at last.
#[cycle(build_member_build_row_build_sparse_build_value)]
fn build_member(
    plan: &[u32],
    needs: &[Need],
    node: usize,
    src: &[u8],
    list: &[u32],
    entry: Entry,
    word: usize,
    out: &mut [u8],
    at: usize,
) -> Option<Built>
    requires { (At plan.now node) × (Refers (look plan.now node) entry.index)
        × (next_of (drop word list.now) ≡ next (claim entry) (drop (word + 5) list.now)) × (word + 5 ≤ length list.now) × (at ≤ 65535)
        × (Memo plan.now needs.now) }
    ensures { stand_of result list.now out.new
        ≡ put_at (part_made (build_of src.now (look plan.now)) (look plan.now node)
        (ref_at (look plan.now node) entry.index) (claim entry) (drop (word + 5) list.now)
        (drop word list.now)) at
        out.old }
{
    let kind = plan_nodes::node::kind_at(plan, node);
    let child = plan_nodes::node::ref_of(plan, node, entry.index as usize);
    if entry.size == constants::ABSENT {
        return build_absent(
            plan,
            node,
            kind,
            child,
            entry,
            word + constants::ENTRY_WORDS,
            out,
            at,
        );
    }
    let from = at + head::head_size(kind);
    let built = build_value(plan, needs, child, src, list, entry, word, out, from)?;
    head::put_head(kind, entry.index, (built.at - from) as u32, out, at);
    Some(built)
}
