// The element with an index, in a container: its heads are read one after the other. A value that was not accepted gives some head, and no
// byte outside it is read.
ghost use Rattle.std.specs.Prelude.{◌≡◌, ◌+◌, ◌^◌, ◌≤◌, ◌<◌, length, get_or};
ghost use Rattle.value_parts.specs.Walk.{Container};
ghost use Rattle.find_path.specs.Descent.{head_at, seek, child_head};
ghost use Rattle.protocol.specs.Plans.{look};
ghost use Rattle.plan_nodes.specs.Readers.{At};

use forms::fault::Fault;
use forms::{Head, Opening};

// The head of the next element, whose index is i unless the wire names it.
fn head_at(
    plan: &[u32],
    node: usize,
    kind: u32,
    part: &[u8],
    i: usize,
    at: usize,
) -> Result<Head, Fault>
    requires { (At plan.now node) × (Container plan.now node kind) × (kind ≡ 5 → i < get_or plan.now (node + 1) 0) × (at ≤ length part.now) }
    ensures { result ≡ head_at (look plan.now node) part.now i at }
{
    if kind == constants::KIND_INPUT_OBJECT {
        let index = value_parts::node::index_at(plan, node, part, at)?;
        return value_parts::node::sparse_head(plan, node, part, index, at);
    }
    value_parts::node::row_head(plan, node, kind, part, i, at)
}

// The head of the element with an index, among those of an opening.
fn seek_head(
    plan: &[u32],
    node: usize,
    kind: u32,
    part: &[u8],
    wanted: usize,
    opening: Opening,
) -> Result<Head, Fault>
    requires { (At plan.now node) × (Container plan.now node kind) × (kind ≡ 5 → opening.first + opening.count ≤ get_or plan.now (node + 1) 0)
        × (opening.first + opening.count < 2 ^ 32) × (length part.now ≤ 65535) × (opening.at ≤ length part.now) }
    ensures { result ≡ seek (look plan.now node) part.now wanted opening.count opening.first opening.at }
{
    let mut at = opening.at;
    for i in opening.first..opening.first + opening.count {
        let head = head_at(plan, node, kind, part, i, at)?;
        if value_heads::parts::index_of(head) == wanted {
            return Ok(head);
        }
        at = value_heads::parts::end_of(head);
    }
    Err(Fault::NO_ENTRY)
}

// The head of the element with an index, in a value of a node: a leaf has none.
pub fn child_head(plan: &[u32], node: usize, part: &[u8], wanted: usize) -> Result<Head, Fault>
    requires { (At plan.now node) × (length part.now ≤ 65535) }
    ensures { result ≡ child_head (look plan.now node) part.now wanted }
{
    let kind = plan_nodes::node::kind_at(plan, node);
    if value_parts::node::is_leaf(kind) {
        return Err(Fault::NO_ENTRY);
    }
    let Ok(opening) = value_parts::node::open_node(plan, node, kind, part) else {
        return Err(Fault::NO_ENTRY);
    };
    seek_head(plan, node, kind, part, wanted, opening)
}
