// Compiling a descriptor's plan.
#![tactic(auto)]

ghost use Rattle.protocol.specs.Crossing.{CompilesPlan};

use forms::Answer;
use forms::fault::Fault;

// Compiles a descriptor's plan for the block with the id of `root`, in scratch room; the plan goes out as bytes only when the whole descriptor
// is accepted.
pub fn compile_plan(descriptor: &[u8], root: &[u8], plan: &mut [u8]) -> Answer
    ensures { CompilesPlan descriptor.now root.now result plan.old plan.new }
{
    let mut scratch = [0u32; constants::MOST_WORDS];
    match descriptor_compile::check(descriptor, root, &mut scratch) {
        Ok(words) => c_words::put_answer(Fault::PLAN_ROOM, &scratch, words, plan),
        Err(refusal) => Answer::from(refusal),
    }
}
