// Finds the element that a path leads to, and gives it back as a part of the slice that was lent, so that no byte is moved (R7.3).
#![tactic(auto)]

pub mod child;

ghost use Rattle.std.specs.Prelude.{◌≡◌, ◌+◌, ◌≤◌, length};
ghost use Rattle.find_path.specs.Find.{outcome};
ghost use Rattle.find_path.specs.Descent.{descend};
ghost use Rattle.protocol.specs.Plans.{look};
ghost use Rattle.plan_nodes.specs.Readers.{At};
ghost use Rattle.protocol.specs.Finding.{find_of};

use forms::Head;
use forms::fault::{Fault, Refusal};

// An element that is found: its bytes, as a part of the value that was lent (R7.3); the node that they are a value of; and where they start in
// the value.
#[derive(Clone, Copy)]
pub struct Found<'v> {
    pub part: &'v [u8],
    pub node: u32,
    pub start: u32,
}

// What the path leads to from a value of a node, which starts at `base` in the top value: its first word names an element, and the rest of the
// path, which is shorter, leads on from there (R7.2).
fn down<'v>(
    plan: &[u32],
    node: usize,
    base: usize,
    part: &'v [u8],
    path: &[u32],
) -> Result<Found<'v>, Refusal>
    requires { (At plan.now node) × (base + length part.now ≤ 65535) }
    ensures { outcome result ≡ descend (look plan.now) path.now node base part.now }
{
    if path.is_empty() {
        return Ok(Found {
            part,
            node: node as u32,
            start: base as u32,
        });
    }
    let rest = &path[1..];
    match child::child_head(plan, node, part, path[0] as usize) {
        Ok(Head::Present { index, start, size }) => {
            let child = plan_nodes::node::ref_of(plan, node, index);
            down(plan, child, base + start, &part[start..start + size], rest)
        }
        // R7.5: the path ends at an absent element; R7.4: it goes on from one, or it names none.
        Ok(Head::Absent { .. }) if rest.is_empty() => Err(Fault::ABSENT_ELEMENT.at(0)),
        _ => Err(Fault::NO_ENTRY.at(0)),
    }
}

// The element that a path leads to, as a part of the value.
pub fn find<'v>(plan: &[u32], value: &'v [u8], path: &[u32]) -> Result<Found<'v>, Refusal>
    ensures { outcome result ≡ find_of plan.now value.now path.now }
{
    run_plan::check(plan, value, &mut [])?;
    if plan_check::no_type(plan) {
        return Err(Fault::NO_ENTRY.at(0));
    }
    down(plan, plan_nodes::node::root_of(plan), 0, value, path)
}
