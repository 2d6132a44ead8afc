// The blocks before the one that is read.
#![tactic(auto, using(crate::proofs::Known::join_one), unfolding(crate::specs::Arrays::known_at))]

ghost use Rattle.std.specs.Prelude.{◌≡◌, ◌+◌, ◌≤◌, ◌<◌, length};
ghost use Rattle.descriptor_fields.specs.Arrays.{Told};

use wire::words::wide;

// The descriptor, and three words of each of its first `n` blocks: where its tag stands, its height, and where its node starts in the plan.
#[derive(Clone, Copy)]
pub struct Earlier<'a> {
    pub d: &'a [u8],
    pub known: &'a [u32],
    pub n: usize,
    ghost told: { Told d.now known.now n },
}

impl<'a> Earlier<'a> {
    ghost use Rattle.descriptor_fields.specs.Arrays.{known_at};

    // Where the tag of a block stands, before its id.
    pub fn start(self, i: usize) -> usize
        requires { i < self.n }
        ensures value { result ≡ (known_at self.entry.d.now self.entry.known.now i).start }
        ensures inside { result + 17 ≤ length self.entry.d.now }
    {
        wide(self.known[3 * i])
    }

    pub fn tag(self, i: usize) -> u32
        requires { i < self.n }
        ensures { result ≡ (known_at self.entry.d.now self.entry.known.now i).tag }
    {
        u32::from(self.d[self.start(i)])
    }

    pub fn height(self, i: usize) -> u32
        requires { i < self.n }
        ensures value { result ≡ (known_at self.entry.d.now self.entry.known.now i).height }
        ensures low { result ≤ 32 }
    {
        self.known[3 * i + 1]
    }

    // Where the node of a block starts in the plan.
    pub fn node(self, i: usize) -> u32
        requires { i < self.n }
        ensures { result ≡ (known_at self.entry.d.now self.entry.known.now i).node }
    {
        self.known[3 * i + 2]
    }
}
