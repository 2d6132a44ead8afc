// Whether a plan is well formed (R4.4). The nodes are read once, in order. The starts of those read are kept, and so are their heights: a
// start is found again by halving, so the time is that of the plan's words but for a logarithm.
#![tactic(auto)]

ghost use Rattle.std.specs.Prelude.{◌≡◌, ◌-◌, ◌^◌, ◌≤◌, ◌<◌, min, length, get_or};
ghost use Rattle.plan_check.specs.Reading.{Reads};
ghost use Rattle.protocol.specs.Plans.{nodes_of, starts_in, without_type, plan_formed};

use constants::MOST_BLOCKS;
use plan_heights::{Before, search};
use plan_nodes::words::size_at;
use wire::words::wide;

// How many nodes a small plan may have.
const FEW_NODES: usize = 64;

// Reads the nodes from word 2 on, and leaves their starts and heights in the two lists. The answer is how many there are, or none where
// the plan is not well formed.
fn read_nodes(plan: &[u32], starts: &mut [u32], heights: &mut [u8]) -> Option<usize>
    requires { (2 ≤ length plan.now) × (length plan.now < 2 ^ 32) × (min 1024 (length plan.now - 2) ≤ length starts.old) × (length starts.old ≤ length heights.old) }
    ensures { Reads plan.now starts.new heights.new result }
{
    let mut n = 0;
    let mut at = 2;
    while at < plan.len() {
        if MOST_BLOCKS <= n {
            return None;
        }
        let size = size_at(plan, at);
        if plan.len() - at < size {
            return None;
        }
        let before = Before {
            plan,
            starts: &starts[..n],
            heights: &heights[..n],
        };
        let height = before.height_at(at)?;
        starts[n] = at as u32;
        heights[n] = height;
        n += 1;
        at += size;
    }
    Some(n)
}

// Whether the nodes fill the plan and are well formed, and the root is one of them. There are at most N nodes.
fn nodes_ok<const N: usize>(plan: &[u32]) -> bool
    requires { (2 ≤ length plan.now) × (length plan.now < 2 ^ 32) × (min 1024 (length plan.now - 2) ≤ N) × (N ≤ 1024) }
    ensures { result ≡ starts_in (nodes_of plan.now) (get_or plan.now 1 0) }
{
    let mut starts = [0; N];
    let mut heights = [0; N];
    let Some(n) = read_nodes(plan, &mut starts, &mut heights) else {
        return false;
    };
    search(&starts[..n], plan[1]).is_some()
}

// Whether a plan is that of no type (R4.6).
#[tactic(auto, unfolding(protocol::specs::Plans::without_type, protocol::specs::Numbers::pick))]
pub fn no_type(plan: &[u32]) -> bool
    ensures { result ≡ without_type plan.now }
{
    matches!(plan, [2, 0])
}

// Whether a plan is well formed.
#[tactic(auto, unfolding(protocol::specs::Plans::plan_formed, protocol::specs::Numbers::pick))]
pub fn plan_ok(plan: &[u32]) -> bool
    ensures { result ≡ plan_formed plan.now }
{
    if no_type(plan) {
        return true;
    }
    if plan.len() < 2 || wide(plan[0]) != plan.len() {
        return false;
    }
    // a node has at least one word, and short lists take little time to clear
    if plan.len() <= FEW_NODES + 2 {
        nodes_ok::<FEW_NODES>(plan)
    } else {
        nodes_ok::<MOST_BLOCKS>(plan)
    }
}
