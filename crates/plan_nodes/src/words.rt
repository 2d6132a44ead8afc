// How far a node of a plan goes.
ghost use Rattle.std.specs.Prelude.{◌≡◌, ◌+◌, ◌<◌, length, get_or};
ghost use Rattle.protocol.specs.Plans.{node_size};

use constants::{KIND_ENUMERATION, KIND_INPUT_OBJECT, KIND_OUTPUT_OBJECT, KIND_TUPLE};
use wire::words::{wide, word_at};

// How many words the node at a position has.
pub fn size_at(plan: &[u32], at: usize) -> usize
    requires { at < length plan.now }
    ensures { result ≡ node_size (get_or plan.now at 0) (get_or plan.now (at + 1) 0) }
{
    let n = wide(word_at(plan, at + 1));
    match plan[at] {
        KIND_TUPLE => 2 + n,
        KIND_OUTPUT_OBJECT | KIND_INPUT_OBJECT => 2 + 2 * n,
        KIND_ENUMERATION => 1,
        _ => 2,
    }
}
