// The indexes of a sparse object's elements, which the wire gives.
ghost use Rattle.std.specs.Prelude.{◌≡◌, true, false, [], ◌≤◌, ◌<◌, length, get_or, set, replicate};
ghost use Rattle.value_heads.specs.Marks.{marked, repeats, indexes_in, indexes_apart};
ghost use Rattle.protocol.specs.Heads.{sparse_index};

use crate::element::sparse_length;
use forms::Head;
use forms::fault::Fault;

// Which indexes of a sparse object were given, and whether one of those that came last had been given before. The marks are read and written
// by the methods here alone. Kept: each takes the set by value and returns it with the mark, a form that was asked for (R9.11).
#[derive(Drop)]
pub struct Seen {
    pub marks: [bool; constants::MOST_ITEMS],
    pub twice: bool,
}

impl Seen {
    // None.
    pub fn new() -> Self
        ensures { (result.marks ≡ replicate 512 false) × (result.twice ≡ false) }
    {
        Seen {
            marks: [false; constants::MOST_ITEMS],
            twice: false,
        }
    }

    // Tests an index and marks it. The marks are copied by themselves: one byte more than 512 takes the copy a slower way.
    pub fn mark(self, i: usize) -> Self
        requires { i < 512 }
        ensures { (result.twice ≡ get_or self.marks i false) × (result.marks ≡ set self.marks i true) }
    {
        let mut marks = self.marks;
        let twice = marks[i];
        marks[i] = true;
        Seen { marks, twice }
    }

    // Tests and marks the indexes of a stretch of elements in a sparse object's bytes: n that are there, one after the other, from `at` on. The
    // set is taken and handed back once for all of them. At a head that is none of such an element it stops.
    pub fn mark_elements(self, s: &[u8], n: usize, at: usize) -> Self
        requires { at ≤ length s.now }
        ensures { (result.twice ≡ repeats self.marks (indexes_in s.now n at)) × (result.marks ≡ marked self.marks (indexes_in s.now n at)) }
    {
        let mut marks = self.marks;
        let mut twice = false;
        let mut pos = at;
        for _ in 0..n {
            let Ok(i) = sparse_index(s, constants::MOST_ITEMS, pos) else {
                break;
            };
            twice |= marks[i];
            marks[i] = true;
            let Ok(head) = sparse_length(s, false, i, pos) else {
                break;
            };
            let Head::Present { start, size, .. } = head else {
                break;
            };
            pos = start + size;
        }
        Seen { marks, twice }
    }

    // The same of a supply's entries, whose index words stand `step` apart in its list, from `first` on.
    pub fn mark_entries(self, list: &[u32], n: usize, first: usize, step: usize) -> Self
        requires { step ≤ 16 }
        ensures { (result.twice ≡ repeats self.marks (indexes_apart list.now step n first)) × (result.marks ≡ marked self.marks (indexes_apart list.now step n first)) }
    {
        let mut marks = self.marks;
        let mut twice = false;
        let mut word = first;
        for _ in 0..n {
            if list.len() <= word {
                break;
            }
            let i = list[word] as usize;
            if i < constants::MOST_ITEMS {
                twice |= marks[i];
                marks[i] = true;
            }
            word += step;
        }
        Seen { marks, twice }
    }
}

// The index of the element at `at`, of n, before it is looked for among the marks. The head must be whole (20) and the index known
// (25).
#[tactic(auto, using(std::proofs::lemmas::Bool::Decides::nat_tests), unfolding(protocol::specs::Numbers::pick, protocol::specs::Heads::word, protocol::specs::Heads::sparse_index))]
pub fn sparse_index(s: &[u8], n: usize, at: usize) -> Result<usize, Fault>
    requires { (at ≤ length s.now) × (n ≤ 512) }
    ensures { result ≡ sparse_index s.now n [] at }
{
    if s.len() - at < 8 {
        return Err(Fault::CONTAINER_END);
    }
    let i = wire::be::u32_at(s, at) as usize;
    if n <= i {
        return Err(Fault::INDEX_OUTSIDE);
    }
    Ok(i)
}
