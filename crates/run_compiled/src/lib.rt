// Compiling a descriptor and then running its plan (R4.14). The two share no more than the plan's words.
#![tactic(auto)]

ghost use Rattle.run_compiled.specs.Follows.{Follows};

use forms::fault::Refusal;

// Compiles a descriptor, and then runs the plan alone: one function, so that its contract is R4.14.
pub fn compile_and_run(
    d: &[u8],
    root: &[u8],
    plan: &mut [u32],
    value: &[u8],
    list: &mut [u32],
) -> Result<u32, Refusal>
    ensures { Follows d.now root.now value.now result plan.old plan.new list.old list.new }
{
    let words = descriptor_compile::compile(d, root, plan)? as usize;
    run_plan::run(&plan[..words], value, list)
}
