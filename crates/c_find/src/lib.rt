// Finding an element of a value by a path.
#![tactic(auto)]

ghost use Rattle.std.specs.Prelude.{◌≡◌, true, ◌+◌, ◌*◌, ◌≤◌, length};
ghost use Rattle.find_path.specs.Find.{outcome};
ghost use Rattle.protocol.specs.Running.{checked};
ghost use Rattle.protocol.specs.Finding.{unfound};
ghost use Rattle.protocol.specs.Crossing.{words_in, crosses, no_path, find_from, find_answer};

use find_path::Found;
use forms::Answer;
use forms::fault::{Fault, Refusal};

// The most words of a plan and a path together.
pub const BOTH: usize = 2 * constants::MOST_WORDS;

// What is found by a plan and a path that cross, in room of its own for N words, those of both. The room is made here and not by the caller, so
// that the two sizes of it share their place on the stack.
fn find_crossed<'v, const N: usize>(
    plan: &[u8],
    value: &'v [u8],
    path: &[u8],
) -> Result<Found<'v>, Refusal>
    requires { (crosses (length plan.now) ≡ true) × (crosses (length path.now) ≡ true) × (length plan.now + length path.now ≤ 4 * N) × (N ≤ 16384) }
    ensures { outcome result ≡ find_from plan.now value.now path.now }
{
    let mut room = [0u32; N];
    c_words::take_both(plan, path, &mut room);
    let words = &room[..];
    let n = plan.len() / 4;
    find_path::find(&words[..n], value, &words[n..n + path.len() / 4])
}

// Why nothing is found where the path does not cross: the value's own faults come first (R9.5).
pub fn find_lost(plan: &[u8], value: &[u8]) -> Refusal
    requires { crosses (length plan.now) ≡ true }
    ensures { unfound result.fault result.place ≡ no_path (checked (words_in plan.now) value.now) }
{
    let mut words = [0u32; constants::MOST_WORDS];
    c_words::take_words(plan, &mut words);
    match run_plan::check(&words[..plan.len() / 4], value, &mut []) {
        Err(refusal) => refusal,
        Ok(_) => Fault::NO_ENTRY.at(0),
    }
}

// What is found by the bytes of a plan and a path.
fn find<'v>(plan: &[u8], value: &'v [u8], path: &[u8]) -> Result<Found<'v>, Refusal>
    ensures { outcome result ≡ find_from plan.now value.now path.now }
{
    if !c_words::whole_words(plan.len()) {
        Err(Fault::BAD_PLAN.at(0))
    } else if !c_words::whole_words(path.len()) {
        Err(find_lost(plan, value))
    } else if c_words::few_words(plan.len(), path.len()) {
        find_crossed::<{ c_words::FEW }>(plan, value, path)
    } else {
        find_crossed::<BOTH>(plan, value, path)
    }
}

// Finds the element that a path leads to: the start and length of its part.
pub fn find_element(plan: &[u8], value: &[u8], path: &[u8]) -> Answer
    ensures { result ≡ find_answer (find_from plan.now value.now path.now) }
{
    match find(plan, value, path) {
        Ok(found) => Answer::success(found.start, found.part.len() as u32),
        Err(refusal) => Answer::from(refusal),
    }
}
