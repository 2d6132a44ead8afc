// How many elements of a sparse object are required (R5.11). They are counted once a call, for every sparse object of the plan, and kept in
// a table: a walk over a value then compares two numbers at the end of each sparse object, and does not look at its whole shape again, so
// that its work is that of the plan's words plus the value's bytes.
ghost use Rattle.std.specs.Prelude.{◌≡◌, ◌+◌, ◌*◌, ◌^◌, ◌≤◌, ◌<◌, length, get_or};
ghost use Rattle.plan_nodes.specs.Memo.{needed_at, Filled, OneMore, Memo};
ghost use Rattle.plan_nodes.specs.Readers.{At};

use crate::node::second_at;
use crate::words::size_at;
use wire::words::wide;

// A sparse object of a plan, by its start, and how many of its elements are required.
#[derive(Clone, Copy)]
pub struct Need {
    pub node: u32,
    pub count: u32,
}

impl Need {
    // what an array of needs is made of before it is filled
    pub const NONE: Need = Need { node: 0, count: 0 };
}

// How many of the n elements of the object at a position are required.
fn count_required(plan: &[u32], at: usize, n: usize) -> usize
    requires { (n ≡ get_or plan.now (at + 1) 0) × (at + 2 + 2 * n ≤ length plan.now) }
    ensures { result ≡ needed_at plan.now at }
{
    let mut found: usize = 0;
    for i in 0..n {
        if value_heads::element::required(plan[at + 3 + 2 * i]) {
            found += 1;
        }
    }
    found
}

// One more need after the first m, for the sparse object at a position. A table that is full stays as it is. The answer is how many needs
// there are then.
fn put_need(plan: &[u32], table: &mut [Need], m: usize, at: usize) -> usize
    requires { (m ≤ length table.old) × (at + 2 + 2 * get_or plan.now (at + 1) 0 ≤ length plan.now) × (length plan.now < 2 ^ 32) }
    ensures { OneMore plan.now table.old table.new m at result }
{
    if m == table.len() {
        return m;
    }
    let count = count_required(plan, at, wide(plan[at + 1]));
    table[m] = Need {
        node: at as u32,
        count: count as u32,
    };
    m + 1
}

// Goes over the nodes of a plan once, up to one that is not whole, and leaves a need for each sparse object, in their order, as far as
// the table has room. The answer is how many needs there are.
pub fn fill(plan: &[u32], table: &mut [Need]) -> usize
    requires { length plan.now < 2 ^ 32 }
    ensures { Filled plan.now table.old table.new result }
{
    let mut m: usize = 0;
    let mut at: usize = 2;
    while at < plan.len() {
        let size = size_at(plan, at);
        if plan.len() - at < size {
            return m;
        }
        if plan[at] == constants::KIND_INPUT_OBJECT {
            m = put_need(plan, table, m, at);
        }
        at += size;
    }
    m
}

// How many elements of a sparse object are required: what the table says, where it has the node, found by halving. Where it has not,
// they are counted anew, so that the answer is right whatever the table lacks and in whatever order it is.
pub fn needed_of(plan: &[u32], table: &[Need], node: usize) -> usize
    requires { (At plan.now node) × (get_or plan.now node 0 ≡ 6) × (Memo plan.now table.now) }
    ensures { result ≡ needed_at plan.now node }
{
    match table.binary_search_by_key(&node, |need| wide(need.node)) {
        Ok(i) => wide(table[i].count),
        Err(_) => count_required(plan, node, second_at(plan, node)),
    }
}
