// The heads of a node's values, by the node's kind.
ghost use Rattle.std.specs.Prelude.{◌≡◌, true, [], ◌+◌, ◌<◌, ◌≤◌, length, get_or};
ghost use Rattle.value_parts.specs.Walk.{Container, leaf_kind, leaf_good};
ghost use Rattle.protocol.specs.Numbers.{pick};
ghost use Rattle.protocol.specs.Heads.{optional, requires, sparse_index, word};
ghost use Rattle.protocol.specs.Values.{opening_of, row_head};
ghost use Rattle.protocol.specs.Plans.{look, cards_at};
ghost use Rattle.plan_nodes.specs.Readers.{At};

use forms::fault::Fault;
use forms::{Head, Opening};

// Whether a node of this kind is a leaf: a scalar (1) or an enumeration (8).
#[tactic(auto, using(std::proofs::lemmas::Bool::Decides::nat_tests), unfolding(crate::specs::Walk::leaf_kind, protocol::specs::Numbers::pick))]
pub fn is_leaf(kind: u32) -> bool
    ensures { result ≡ leaf_kind kind }
{
    kind == constants::KIND_LEAF || kind == constants::KIND_ENUMERATION
}

// Whether a leaf's content is permitted.
#[tactic(auto, using(crate::proofs::Nodes::good_enum, crate::proofs::Nodes::good_scalar, crate::proofs::Nodes::scalar_kind, plan_nodes::proofs::Nodes::at_format))]
pub fn leaf_ok(plan: &[u32], node: usize, kind: u32, part: &[u8]) -> bool
    requires { (At plan.now node) × (kind ≡ get_or plan.now node 0) × (leaf_kind kind ≡ true) }
    ensures { result ≡ leaf_good (look plan.now node) part.now }
{
    if kind == constants::KIND_ENUMERATION {
        return value_scalars::enumeration_ok(part);
    }
    value_scalars::scalar_ok(plan_nodes::node::second_at(plan, node) as u32, part)
}

// The head of a container.
#[tactic(auto, using(crate::proofs::Nodes::open_sparse, crate::proofs::Nodes::open_range))]
pub fn open_node(plan: &[u32], node: usize, kind: u32, part: &[u8]) -> Result<Opening, Fault>
    requires { (At plan.now node) × (Container plan.now node kind) }
    ensures { result ≡ opening_of (look plan.now node) part.now }
{
    if kind == constants::KIND_INPUT_OBJECT {
        return value_openings::sparse_opening(part);
    }
    if kind == constants::KIND_RANGE {
        return value_openings::range_opening(part);
    }
    if kind < constants::KIND_TUPLE {
        return value_openings::set_opening(part);
    }
    value_openings::count_opening(part, plan_nodes::node::second_at(plan, node))
}

// The head of the element with an index, in a container whose elements come in order.
#[tactic(auto, using(crate::proofs::Nodes::head_tuple, crate::proofs::Nodes::head_arrays, crate::proofs::Nodes::head_object, crate::proofs::Nodes::head_plain))]
pub fn row_head(
    plan: &[u32],
    node: usize,
    kind: u32,
    part: &[u8],
    i: usize,
    at: usize,
) -> Result<Head, Fault>
    requires { (At plan.now node) × (Container plan.now node kind) × (kind ≡ 6 → ⊥) × (kind ≡ 5 → i < get_or plan.now (node + 1) 0) × (at ≤ length part.now) }
    ensures { result ≡ row_head (look plan.now node) part.now i at }
{
    match kind {
        constants::KIND_TUPLE => value_heads::element::plain_head(part, 4, i, at),
        constants::KIND_SET_OF_ARRAYS => value_heads::element::envelope_head(part, i, at),
        constants::KIND_OUTPUT_OBJECT => {
            let required = value_heads::element::required(plan_nodes::node::card_of(plan, node, i));
            value_heads::element::object_head(part, required, i, at)
        }
        _ => value_heads::element::plain_head(part, 0, i, at),
    }
}

// The index of an element of a sparse object, before it is looked for among those seen.
#[tactic(auto, using(plan_nodes::proofs::Nodes::at_few))]
pub fn index_at(plan: &[u32], node: usize, part: &[u8], at: usize) -> Result<usize, Fault>
    requires { (At plan.now node) × (get_or plan.now node 0 ≡ 6) × (at ≤ length part.now) }
    ensures { result ≡ sparse_index part.now (get_or plan.now (node + 1) 0) [] at }
{
    value_heads::sparse::sparse_index(part, plan_nodes::node::second_at(plan, node), at)
}

// The head of an element of a sparse object, after its index.
pub fn sparse_head(
    plan: &[u32],
    node: usize,
    part: &[u8],
    i: usize,
    at: usize,
) -> Result<Head, Fault>
    requires { (At plan.now node) × (get_or plan.now node 0 ≡ 6) × (i < get_or plan.now (node + 1) 0) × (at + 8 ≤ length part.now) }
    ensures { result ≡ optional part.now (requires (get_or (cards_at plan.now node) i 0)) i (at + 8) (word part.now (at + 4)) }
{
    let required = value_heads::element::required(plan_nodes::node::card_of(plan, node, i));
    value_heads::element::sparse_length(part, required, i, at)
}

// How many required elements of a sparse object were given, with one more element: it counts where it is required. Whether one is lacking
// is told by this number at the end, so that the shape's other elements are not looked at.
#[tactic(auto, unfolding(protocol::specs::Numbers::pick))]
pub fn count_given(plan: &[u32], node: usize, i: usize, given: usize) -> usize
    requires { (At plan.now node) × (get_or plan.now node 0 ≡ 6) × (i < get_or plan.now (node + 1) 0) × (given ≤ 512) }
    ensures { result ≡ given + pick (requires (get_or (cards_at plan.now node) i 0)) 1 0 }
{
    if value_heads::element::required(plan_nodes::node::card_of(plan, node, i)) {
        return given + 1;
    }
    given
}
