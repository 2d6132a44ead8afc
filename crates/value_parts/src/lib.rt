// What a walk over a value is made of: the heads of a node's values, the entries of the list, and where the walk stands.
#![tactic(auto)]

pub mod entry;
pub mod node;

ghost use Rattle.std.specs.Prelude.{◌≡◌};

use value_heads::sparse::Seen;

// Where a stretch of a sparse object's elements ends: the set of their indexes and how many of those are required, how many elements
// are left, where the next one stands, and the words of the list so far.
#[derive(Drop)]
pub struct Gathered {
    pub seen: Seen,
    pub given: usize,
    pub left: usize,
    pub pos: usize,
    pub at: usize,
}

impl Gathered {
    // The end of a stretch.
    pub fn new(seen: Seen, given: usize, left: usize, pos: usize, at: usize) -> Self
        ensures { (result.seen ≡ seen) × (result.given ≡ given) × (result.left ≡ left) × (result.pos ≡ pos) × (result.at ≡ at) }
    {
        Gathered {
            seen,
            given,
            left,
            pos,
            at,
        }
    }
}
