// An element's head, by the kind of its container.
ghost use Rattle.std.specs.Prelude.{◌≡◌, ◌+◌, ◌≤◌, length};
ghost use Rattle.protocol.specs.Heads.{word, requires, element_in, optional, plain_head, object_head, envelope_head};

use forms::Head;
use forms::fault::Fault;

// Whether an element of this cardinality may not be absent: one (41) and at least one (4d).
#[tactic(auto, using(std::proofs::lemmas::Bool::Decides::nat_tests), unfolding(protocol::specs::Numbers::pick))]
pub fn required(card: u32) -> bool
    ensures { result ≡ requires card }
{
    card == constants::CARDINALITY_ONE || card == constants::CARDINALITY_AT_LEAST_ONE
}

// The data of an element, of `size` bytes from `start` on. A length is signed, and negative from 2147483648 on (23); what is left of
// the container must hold the data (20).
#[tactic(auto, using(std::proofs::lemmas::Bool::Decides::nat_tests), unfolding(protocol::specs::Numbers::pick, protocol::specs::Heads::element_in, protocol::specs::Heads::negative))]
fn data_at(s: &[u8], index: usize, start: usize, size: u32) -> Result<Head, Fault>
    requires { start ≤ length s.now }
    ensures { result ≡ element_in s.now index start size }
{
    if 2147483648 <= size {
        return Err(Fault::BAD_SIZE);
    }
    let size = size as usize;
    if s.len() - start < size {
        return Err(Fault::CONTAINER_END);
    }
    Ok(Head::Present { index, start, size })
}

// An element of a set, an array or a range, with no reserved bytes before its length, or of a tuple, with four. It may not be absent.
#[tactic(auto, using(std::proofs::lemmas::Bool::Decides::nat_tests), unfolding(protocol::specs::Numbers::pick, protocol::specs::Heads::plain_head, protocol::specs::Heads::word))]
pub fn plain_head(s: &[u8], gap: usize, i: usize, at: usize) -> Result<Head, Fault>
    requires { (at ≤ length s.now) × (gap ≤ 16) }
    ensures { result ≡ plain_head s.now gap i at }
{
    if s.len() - at < gap + 4 {
        return Err(Fault::CONTAINER_END);
    }
    let field = at + gap;
    let size = wire::be::u32_at(s, field);
    data_at(s, i, field + 4, size)
}

// The length of an object's element, sparse or not, after the four bytes of its index or the reserved ones. -1 is absence, which the
// cardinality may not permit (27).
#[tactic(auto, using(std::proofs::lemmas::Bool::Decides::nat_tests), unfolding(protocol::specs::Numbers::pick, protocol::specs::Heads::optional, protocol::specs::Heads::word))]
pub fn sparse_length(s: &[u8], required: bool, i: usize, at: usize) -> Result<Head, Fault>
    requires { at + 8 ≤ length s.now }
    ensures { result ≡ optional s.now required i (at + 8) (word s.now (at + 4)) }
{
    let start = at + 8;
    let size = wire::be::u32_at(s, at + 4);
    if size != constants::ABSENT {
        return data_at(s, i, start, size);
    }
    if required {
        return Err(Fault::REQUIRED);
    }
    Ok(Head::Absent { index: i, start })
}

// An element of an object: four reserved bytes, and its length.
#[tactic(auto, using(std::proofs::lemmas::Bool::Decides::nat_tests), unfolding(protocol::specs::Numbers::pick, protocol::specs::Heads::object_head))]
pub fn object_head(s: &[u8], required: bool, i: usize, at: usize) -> Result<Head, Fault>
    requires { at ≤ length s.now }
    ensures { result ≡ object_head s.now required i at }
{
    if s.len() - at < 8 {
        return Err(Fault::CONTAINER_END);
    }
    sparse_length(s, required, i, at)
}

// An element of a set of arrays, in an envelope: its length, the number 1, four reserved bytes and the array's length. The envelope's
// length counts those twelve bytes and the array.
#[tactic(auto, using(std::proofs::lemmas::Bool::Decides::nat_tests), unfolding(protocol::specs::Numbers::pick, protocol::specs::Heads::envelope_head, protocol::specs::Heads::word, protocol::specs::Heads::negative))]
pub fn envelope_head(s: &[u8], i: usize, at: usize) -> Result<Head, Fault>
    requires { at ≤ length s.now }
    ensures { result ≡ envelope_head s.now i at }
{
    if s.len() - at < 16 {
        return Err(Fault::CONTAINER_END);
    }
    if wire::be::u32_at(s, at + 4) != 1 {
        return Err(Fault::BAD_HEAD);
    }
    let inner = wire::be::u32_at(s, at + 12);
    if 2147483648 <= inner {
        return Err(Fault::BAD_SIZE);
    }
    let outer = wire::be::u32_at(s, at);
    if 2147483648 <= outer || outer != 12 + inner {
        return Err(Fault::BAD_HEAD);
    }
    data_at(s, i, at + 16, inner)
}
