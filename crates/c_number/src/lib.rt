// The number of an element that a path leads to.
#![tactic(auto)]

ghost use Rattle.std.specs.Prelude.{◌≡◌, true, ◌+◌, ◌*◌, ◌≤◌, length};
ghost use Rattle.find_number.specs.Number.{Proper, Gives, shown};
ghost use Rattle.protocol.specs.Finding.{numbered};
ghost use Rattle.protocol.specs.Crossing.{crosses, number_from, number_answer};

use forms::Number;
use forms::fault::{Fault, Refusal};

// A number of a format.
#[tactic(auto, unfolding(protocol::specs::Crossing::number_answer))]
fn known(format: u32, bits: u64) -> Number
    ensures { result ≡ number_answer (numbered format bits) }
{
    Number {
        number: 0,
        place: 0,
        format,
        bits,
    }
}

// The format and the bits of a number, or a refusal.
#[tactic(auto, unfolding(protocol::specs::Crossing::number_answer, find_number::specs::Number::shown, find_number::specs::Number::Proper))]
fn number_answer(number: Result<find_number::Number, Refusal>) -> Number
    requires { Proper number }
    ensures { result ≡ number_answer (shown number) }
{
    match number {
        Err(refusal) => Number {
            number: refusal.fault.number(),
            place: refusal.place,
            format: 0,
            bits: 0,
        },
        Ok(find_number::Number::Integer { format, bits }) => known(format, bits),
        Ok(find_number::Number::Truth(b)) => known(constants::FORMAT_BOOL, b as u64),
        Ok(find_number::Number::Single(x)) => known(constants::FORMAT_FLOAT32, x.to_bits() as u64),
        Ok(find_number::Number::Double(x)) => known(constants::FORMAT_FLOAT64, x.to_bits()),
        Ok(find_number::Number::SingleNan(bits)) => known(constants::FORMAT_FLOAT32, bits as u64),
        Ok(find_number::Number::DoubleNan(bits)) => known(constants::FORMAT_FLOAT64, bits),
    }
}

// The number by a plan and a path that cross, in room of its own for N words, those of both.
fn number_crossed<const N: usize>(
    plan: &[u8],
    value: &[u8],
    path: &[u8],
) -> Result<find_number::Number, Refusal>
    requires { (crosses (length plan.now) ≡ true) × (crosses (length path.now) ≡ true) × (length plan.now + length path.now ≤ 4 * N) × (N ≤ 16384) }
    ensures { Gives (number_from plan.now value.now path.now) result }
{
    let mut room = [0u32; N];
    c_words::take_both(plan, path, &mut room);
    let words = &room[..];
    let n = plan.len() / 4;
    find_number::find_number(&words[..n], value, &words[n..n + path.len() / 4])
}

// The number by the bytes of a plan and a path.
fn number(plan: &[u8], value: &[u8], path: &[u8]) -> Result<find_number::Number, Refusal>
    ensures { Gives (number_from plan.now value.now path.now) result }
{
    if !c_words::whole_words(plan.len()) {
        Err(Fault::BAD_PLAN.at(0))
    } else if !c_words::whole_words(path.len()) {
        Err(c_find::find_lost(plan, value))
    } else if c_words::few_words(plan.len(), path.len()) {
        number_crossed::<{ c_words::FEW }>(plan, value, path)
    } else {
        number_crossed::<{ c_find::BOTH }>(plan, value, path)
    }
}

// The number of the element that a path leads to.
pub fn find_number(plan: &[u8], value: &[u8], path: &[u8]) -> Number
    ensures { result ≡ number_answer (number_from plan.now value.now path.now) }
{
    number_answer(number(plan, value, path))
}
