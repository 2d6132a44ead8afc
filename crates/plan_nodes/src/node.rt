// The nodes of a well-formed plan. Whoever walks a plan sees it only through these functions, so that another form of plan changes
// them alone.
ghost use Rattle.std.specs.Prelude.{◌≡◌, true, false, ◌+◌, ◌≤◌, ◌<◌, get_or};
ghost use Rattle.std.proofs.Math.Option.{some};
ghost use Rattle.plan_nodes.specs.Readers.{Refers, KindAt, At};
ghost use Rattle.protocol.specs.Nodes.{ref_at};
ghost use Rattle.protocol.specs.Plans.{look, cards_at, without_type, plan_formed};

use constants::{KIND_INPUT_OBJECT, KIND_OUTPUT_OBJECT, KIND_TUPLE};
use wire::words::wide;

// The root's node, which is the plan's second word (R4.1). A plan of no type has none.
pub fn root_of(plan: &[u32]) -> usize
    requires { (plan_formed plan.now ≡ true) × (without_type plan.now ≡ false) }
    ensures { (result ≡ get_or plan.now 1 0) × (At plan.now result) }
{
    wide(plan[1])
}

// The kind of a node.
pub fn kind_at(plan: &[u32], node: usize) -> u32
    requires { At plan.now node }
    ensures { KindAt plan.now node result }
{
    plan[node]
}

// The second word of a node: a leaf's format, a reference, or a count. An enumeration has none.
pub fn second_at(plan: &[u32], node: usize) -> usize
    requires { (At plan.now node) × (get_or plan.now node 0 ≡ 8 → ⊥) }
    ensures { result ≡ get_or plan.now (node + 1) 0 }
{
    wide(plan[node + 1])
}

// The node of the element with an index.
pub fn ref_of(plan: &[u32], node: usize, i: usize) -> usize
    requires { (At plan.now node) × (Refers (look plan.now node) i) }
    ensures { ref_at (look plan.now node) i ≡ some result }
{
    match plan[node] {
        KIND_TUPLE => wide(plan[node + 2 + i]),
        KIND_OUTPUT_OBJECT | KIND_INPUT_OBJECT => wide(plan[node + 2 + 2 * i]),
        _ => wide(plan[node + 1]),
    }
}

// The cardinality of an object's element.
pub fn card_of(plan: &[u32], node: usize, i: usize) -> u32
    requires { (At plan.now node) × (5 ≤ get_or plan.now node 0) × (get_or plan.now node 0 ≤ 6) × (i < get_or plan.now (node + 1) 0) }
    ensures { result ≡ get_or (cards_at plan.now node) i 0 }
{
    plan[node + 3 + 2 * i]
}
