// The height of a plan's node, by the starts and heights of the nodes before it, to which alone it may refer. A start is found by halving.
#![tactic(auto)]

ghost use Rattle.std.specs.Prelude.{◌≡◌, ◌+◌, ◌*◌, ◌≤◌, length, get_or};
ghost use Rattle.plan_heights.specs.Scan.{Rising, Scanned, Among, height_option, elements_height};
ghost use Rattle.protocol.specs.Plans.{may_refer, refer, node_size, node_height, many_height};

use constants::{
    FORMATS, KIND_ENUMERATION, KIND_INPUT_OBJECT, KIND_LEAF, KIND_OUTPUT_OBJECT, KIND_RANGE,
    KIND_SET_OF_ARRAYS, KIND_SET_OR_ARRAY, KIND_TUPLE, MOST_HEIGHT, MOST_ITEMS,
};
use wire::words::{is_cardinality, wide};

// The height of the highest node that another may refer to.
const HIGH: u8 = MOST_HEIGHT as u8 - 1;

// The index of a start among the starts, by halving, but for the most part without a search: most nodes have two words, and while all
// before a node have, its start tells its index.
pub fn search(starts: &[u32], start: u32) -> Option<usize>
    requires { Rising starts.now }
    ensures { Among starts.now start result }
{
    let next = wide(start / 2);
    if 0 < next && next <= starts.len() && starts[next - 1] == start {
        return Some(next - 1);
    }
    starts.binary_search(&start).ok()
}

// Whether a node of a kind may refer to one of another kind (R4.3).
#[tactic(auto, unfolding(protocol::specs::Plans::may_refer, protocol::specs::Numbers::pick))]
fn may_refer(kind: u32, other: u32) -> bool
    ensures { result ≡ may_refer kind other }
{
    match kind {
        KIND_SET_OR_ARRAY => other != KIND_SET_OR_ARRAY && other != KIND_SET_OF_ARRAYS,
        KIND_SET_OF_ARRAYS => other == KIND_SET_OR_ARRAY,
        KIND_RANGE => other == KIND_LEAF,
        _ => true,
    }
}

// The nodes of a plan that were read before another: their starts and their heights, both in order.
// Kept for speed: two lists in place of one list of pairs, since they are cleared at each call, and a node takes five bytes and not eight.
#[derive(Clone, Copy)]
pub struct Before<'a> {
    pub plan: &'a [u32],
    pub starts: &'a [u32],
    pub heights: &'a [u8],
    ghost scanned: { Scanned plan.now starts.now heights.now },
}

impl<'a> Before<'a> {
    ghost use Rattle.plan_heights.specs.Seen.{seen};

    // The height of a node, as far as its earlier references tell, with one more reference: none where it may not refer so.
    fn refer_to(&self, kind: u32, reference: u32, height: u8) -> Option<u8>
        requires { 1 ≤ height }
        ensures { result ≡ height_option (refer (seen self.now) kind reference height) }
    {
        let index = search(self.starts, reference)?;
        if !may_refer(kind, self.plan[wide(self.starts[index])]) {
            return None;
        }
        let other = self.heights[index];
        if HIGH < other {
            return None;
        }
        Some(height.max(other + 1))
    }

    // The height of a tuple or an object, of whose elements each has STEP words: a reference, and in an object a cardinality after it.
    fn elements_height<const STEP: usize>(&self, at: usize, kind: u32, count: usize) -> Option<u8>
        requires { (1 ≤ STEP) × (at + 2 + STEP * count ≤ length self.now.plan.now) }
        ensures { result ≡ height_option (elements_height STEP self.now.plan.now at (seen self.now) kind count) }
    {
        let mut height = 1;
        for k in 0..count {
            let word = at + 2 + STEP * k;
            if STEP == 2 && !is_cardinality(self.plan[word + 1]) {
                return None;
            }
            height = self.refer_to(kind, self.plan[word], height)?;
        }
        Some(height)
    }

    // The height of a tuple or an object.
    fn many_height(&self, at: usize, kind: u32, count: usize) -> Option<u8>
        requires { at + node_size kind count ≤ length self.now.plan.now }
        ensures { result ≡ height_option (many_height self.now.plan.now at (seen self.now) kind count) }
    {
        if MOST_ITEMS < count {
            return None;
        }
        match kind {
            KIND_TUPLE => self.elements_height::<1>(at, kind, count),
            KIND_OUTPUT_OBJECT | KIND_INPUT_OBJECT => self.elements_height::<2>(at, kind, count),
            _ => None,
        }
    }

    // The height of the node at a position, against those before it: none where it is not well formed.
    pub fn height_at(&self, at: usize) -> Option<u8>
        requires { at + node_size (get_or self.now.plan.now at 0) (get_or self.now.plan.now (at + 1) 0) ≤ length self.now.plan.now }
        ensures { result
            ≡ height_option
            (node_height self.now.plan.now at (seen self.now) (get_or self.now.plan.now at 0)
            (get_or self.now.plan.now (at + 1) 0)) }
    {
        let kind = self.plan[at];
        if kind == KIND_ENUMERATION {
            return Some(1);
        }
        let second = self.plan[at + 1];
        match kind {
            KIND_LEAF => (second < FORMATS).then_some(1),
            KIND_SET_OR_ARRAY | KIND_SET_OF_ARRAYS | KIND_RANGE => self.refer_to(kind, second, 1),
            _ => self.many_height(at, kind, wide(second)),
        }
    }
}
