// A container's own head, by the kind of the container.
#![tactic(auto)]

ghost use Rattle.std.specs.Prelude.{◌≡◌, false, ◌<◌, Ok};
ghost use Rattle.protocol.specs.Numbers.{pick};
ghost use Rattle.protocol.specs.Heads.{set_opening, count_opening, sparse_opening, flag, range_flags, bounds, range_opening, dimension};

use forms::Opening;
use forms::fault::Fault;

// The one dimension of a set or an array: an upper bound of at least 1, which is the number of elements, and a lower bound of 1. Each
// field must be complete (20) before its rule is asked (22): R5.4.
#[tactic(auto, using(std::proofs::lemmas::Bool::Decides::nat_tests), unfolding(protocol::specs::Numbers::pick, protocol::specs::Heads::word, protocol::specs::Heads::negative, protocol::specs::Heads::dimension))]
fn dimension_of(s: &[u8]) -> Result<Opening, Fault>
    ensures { result ≡ dimension s.now }
{
    if s.len() < 16 {
        return Err(Fault::CONTAINER_END);
    }
    let upper = wire::be::u32_at(s, 12);
    if upper == 0 || 2147483648 <= upper {
        return Err(Fault::BAD_HEAD);
    }
    if s.len() < 20 {
        return Err(Fault::CONTAINER_END);
    }
    if wire::be::u32_at(s, 16) != 1 {
        return Err(Fault::BAD_HEAD);
    }
    Ok(Opening {
        count: upper as usize,
        first: 0,
        at: 20,
    })
}

// A set or an array: no dimension or one, and eight reserved bytes, which are skipped.
#[tactic(auto, using(std::proofs::lemmas::Bool::Decides::nat_tests), unfolding(protocol::specs::Numbers::pick, protocol::specs::Heads::word, protocol::specs::Heads::set_opening))]
pub fn set_opening(s: &[u8]) -> Result<Opening, Fault>
    ensures { result ≡ set_opening s.now }
{
    if s.len() < 4 {
        return Err(Fault::CONTAINER_END);
    }
    let dims = wire::be::u32_at(s, 0);
    if 1 < dims {
        return Err(Fault::BAD_HEAD);
    }
    if s.len() < 12 {
        return Err(Fault::CONTAINER_END);
    }
    if dims == 0 {
        return Ok(Opening {
            count: 0,
            first: 0,
            at: 12,
        });
    }
    dimension_of(s)
}

// A tuple or an object: as many elements as its descriptor says.
#[tactic(auto, using(std::proofs::lemmas::Bool::Decides::nat_tests), unfolding(protocol::specs::Numbers::pick, protocol::specs::Heads::word, protocol::specs::Heads::count_opening))]
pub fn count_opening(s: &[u8], n: usize) -> Result<Opening, Fault>
    ensures { result ≡ count_opening n s.now }
{
    if s.len() < 4 {
        return Err(Fault::CONTAINER_END);
    }
    if wire::be::u32_at(s, 0) as usize != n {
        return Err(Fault::BAD_HEAD);
    }
    Ok(Opening {
        count: n,
        first: 0,
        at: 4,
    })
}

// A sparse object: any number of elements that is not negative.
#[tactic(auto, using(std::proofs::lemmas::Bool::Decides::nat_tests), unfolding(protocol::specs::Numbers::pick, protocol::specs::Heads::word, protocol::specs::Heads::negative, protocol::specs::Heads::sparse_opening))]
pub fn sparse_opening(s: &[u8]) -> Result<Opening, Fault>
    ensures { result ≡ sparse_opening s.now }
{
    if s.len() < 4 {
        return Err(Fault::CONTAINER_END);
    }
    let count = wire::be::u32_at(s, 0);
    if 2147483648 <= count {
        return Err(Fault::BAD_HEAD);
    }
    Ok(Opening {
        count: count as usize,
        first: 0,
        at: 4,
    })
}

// Whether a range's flags have a bit, given as a power of two.
#[tactic(auto, unfolding(protocol::specs::Heads::flag))]
fn has_flag(bit: u8, f: u8) -> bool
    requires { 0 < bit }
    ensures { result ≡ flag bit f }
{
    f / bit % 2 == 1
}

// Whether they have two bits.
#[tactic(auto, unfolding(protocol::specs::Numbers::pick))]
fn has_flags(bit: u8, other: u8, f: u8) -> bool
    requires { (0 < bit) × (0 < other) }
    ensures { result ≡ pick (flag bit f) (flag other f) false }
{
    has_flag(bit, f) && has_flag(other, f)
}

// Empty alone (01); or some of lower inclusive (02), upper inclusive (04), no lower (08) and no upper (10), but no bound both inclusive
// and missing.
#[tactic(auto, using(std::proofs::lemmas::Bool::Decides::nat_tests), unfolding(protocol::specs::Numbers::pick, protocol::specs::Heads::range_flags))]
fn known_flags(f: u8) -> bool
    ensures { result ≡ range_flags f }
{
    if f == 0x01 {
        return true;
    }
    !has_flag(0x01, f) && f < 0x20 && !has_flags(0x02, 0x08, f) && !has_flags(0x04, 0x10, f)
}

// The bounds that known flags say are there, as elements: the lower with index 0, the upper with 1.
#[tactic(auto, using(std::proofs::lemmas::Bool::Decides::nat_tests), unfolding(protocol::specs::Numbers::pick, protocol::specs::Heads::bounds))]
fn bounds_of(f: u8) -> Opening
    ensures { Ok result ≡ bounds f }
{
    let (count, first) = if f == 0x01 {
        (0, 0)
    } else {
        match (has_flag(0x08, f), has_flag(0x10, f)) {
            (true, true) => (0, 0),
            (true, false) => (1, 1),
            (false, true) => (1, 0),
            (false, false) => (2, 0),
        }
    };
    Opening {
        count,
        first,
        at: 1,
    }
}

// A range: a byte of flags, and then the bounds.
#[tactic(auto, using(std::proofs::lemmas::Bool::Decides::nat_tests), unfolding(protocol::specs::Numbers::pick, protocol::specs::Heads::range_opening))]
pub fn range_opening(s: &[u8]) -> Result<Opening, Fault>
    ensures { result ≡ range_opening s.now }
{
    if s.is_empty() {
        return Err(Fault::CONTAINER_END);
    }
    let f = s[0];
    if !known_flags(f) {
        return Err(Fault::BAD_HEAD);
    }
    Ok(bounds_of(f))
}
