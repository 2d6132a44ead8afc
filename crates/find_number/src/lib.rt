// The number of the element that a path leads to.
#![tactic(auto)]

ghost use Rattle.std.specs.Prelude.{◌≡◌, true, ◌+◌, ◌^◌, ◌<◌, get_or, Ok};
ghost use Rattle.find_number.specs.Number.{Width, Gives};
ghost use Rattle.protocol.specs.Scalars.{scalar};
ghost use Rattle.protocol.specs.Plans.{look};
ghost use Rattle.plan_nodes.specs.Readers.{At};
ghost use Rattle.protocol.specs.Finding.{integral, extended, numbered, of_format, of_node, number_of};

use forms::fault::{Fault, Refusal};

// The number of an element: an integer's format and its bits, with its sign in all 64; a truth value; a float; or the bits of a float that is
// a NaN.
#[derive(Clone, Copy)]
pub enum Number {
    Integer { format: u32, bits: u64 },
    Truth(bool),
    Single(f32),
    Double(f64),
    SingleNan(u32),
    DoubleNan(u64),
}

// An integer of 2, 4 or 8 bytes in 8, with its sign.
fn extend(n: u64, width: usize) -> u64
    requires { (Width width) × (n < 256 ^ width) }
    ensures { result ≡ extended width n }
{
    match width {
        2 => i64::from((n as u16).cast_signed()).cast_unsigned(),
        4 => i64::from((n as u32).cast_signed()).cast_unsigned(),
        _ => n,
    }
}

// Whether a format is an integer's.
#[tactic(auto, unfolding(protocol::specs::Finding::integral, protocol::specs::Numbers::pick))]
fn is_integer(format: u32) -> bool
    ensures { result ≡ integral format }
{
    matches!(
        format,
        constants::FORMAT_INT16
            | constants::FORMAT_INT32
            | constants::FORMAT_INT64
            | constants::FORMAT_MEMORY
    )
}

// A float of 32 bits. A NaN's bits are kept as they are: a float would not keep them.
fn single(bits: u32) -> Number
    ensures { Gives (numbered 6 bits) (Ok result) }
{
    if 0x7f800000 < bits % 0x80000000 {
        Number::SingleNan(bits)
    } else {
        Number::Single(f32::from_bits(bits))
    }
}

// A float of 64 bits.
fn double(bits: u64) -> Number
    ensures { Gives (numbered 7 bits) (Ok result) }
{
    if 0x7ff0000000000000 < bits % 0x8000000000000000 {
        Number::DoubleNan(bits)
    } else {
        Number::Double(f64::from_bits(bits))
    }
}

// The number of a scalar that is permitted.
fn of_format(format: u32, part: &[u8]) -> Result<Number, Refusal>
    requires { scalar format part.now ≡ true }
    ensures { Gives (of_format format part.now) result }
{
    match format {
        constants::FORMAT_FLOAT32 => Ok(single(wire::be::u32_at(part, 0))),
        constants::FORMAT_FLOAT64 => Ok(double(wire::be::uint_at(part, 0, 8))),
        constants::FORMAT_BOOL => Ok(Number::Truth(part[0] == 1)),
        _ if is_integer(format) => {
            let bits = extend(wire::be::uint_at(part, 0, part.len()), part.len());
            Ok(Number::Integer { format, bits })
        }
        _ => Err(Fault::NO_NUMBER.at(0)),
    }
}

// The number of a value of a node, which is accepted: only a scalar can have one.
fn of_node(plan: &[u32], node: usize, part: &[u8]) -> Result<Number, Refusal>
    requires { (At plan.now node) × (get_or plan.now node 0 ≡ 1 → scalar (get_or plan.now (node + 1) 0) part.now ≡ true) }
    ensures { Gives (of_node (look plan.now node) part.now) result }
{
    if plan_nodes::node::kind_at(plan, node) != constants::KIND_LEAF {
        return Err(Fault::NO_NUMBER.at(0));
    }
    of_format(plan_nodes::node::second_at(plan, node) as u32, part)
}

// The number of the element that a path leads to.
pub fn find_number(plan: &[u32], value: &[u8], path: &[u32]) -> Result<Number, Refusal>
    ensures { Gives (number_of plan.now value.now path.now) result }
{
    let found = find_path::find(plan, value, path)?;
    of_node(plan, found.node as usize, found.part)
}
