// The parts of a head that was read: where it leads, and which element it is.
ghost use Rattle.std.specs.Prelude.{◌≡◌, ◌^◌, ◌<◌, Ok};
ghost use Rattle.protocol.specs.Heads.{end_of, index_of};

use forms::Head;

// Where the next element's head stands.
#[tactic(auto, unfolding(protocol::specs::Heads::end_of))]
pub fn end_of(h: Head) -> usize
    requires { end_of (Ok h) < 2 ^ 64 }
    ensures { result ≡ end_of (Ok h) }
{
    match h {
        Head::Present { start, size, .. } => start + size,
        Head::Absent { start, .. } => start,
    }
}

// Which element the head is of.
#[tactic(auto, unfolding(protocol::specs::Heads::index_of))]
pub fn index_of(h: Head) -> usize
    ensures { result ≡ index_of (Ok h) }
{
    match h {
        Head::Present { index, .. } => index,
        Head::Absent { index, .. } => index,
    }
}
