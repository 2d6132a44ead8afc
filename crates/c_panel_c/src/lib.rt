// The panel's calls as C reaches them: the exports of the static library. Each has the name, the parameters and the clause of the function
// of c_panel that it calls, where the clause is explained.
#![tactic(auto)]

ghost use Rattle.std.specs.Prelude.{◌≡◌};
ghost use Rattle.protocol.specs.Crossing.{ReadsMessage, WritesMessage, RunsValue, CompilesPlan, find_from, find_answer, number_from, number_answer, WritesValue};
ghost use Rattle.protocol.specs.Intake.{intake_start, intake_reset, TakesDelivery};

use forms::{Answer, Delivery, Intake, Number};

#[unsafe(no_mangle)]
pub extern "C" fn rembulfose_read_message(side: u32, src: &[u8], list: &mut [u8]) -> Answer
    ensures { ReadsMessage side src.now result list.old list.new }
{
    c_panel::rembulfose_read_message(side, src, list)
}

#[unsafe(no_mangle)]
pub extern "C" fn rembulfose_intake_start(side: u32, room: usize) -> Intake
    ensures { result ≡ intake_start side room }
{
    c_panel::rembulfose_intake_start(side, room)
}

#[unsafe(no_mangle)]
pub extern "C" fn rembulfose_intake_reset(intake: Intake) -> Intake
    ensures { result ≡ intake_reset intake }
{
    c_panel::rembulfose_intake_reset(intake)
}

#[unsafe(no_mangle)]
pub extern "C" fn rembulfose_intake_take(intake: Intake, src: &[u8], room: &mut [u8]) -> Delivery
    ensures { TakesDelivery intake src.now result room.old room.new }
{
    c_panel::rembulfose_intake_take(intake, src, room)
}

#[unsafe(no_mangle)]
pub extern "C" fn rembulfose_write_message(
    side: u32,
    ty: u8,
    list: &[u8],
    src: &[u8],
    out: &mut [u8],
) -> Answer
    ensures { WritesMessage side ty list.now src.now result out.old out.new }
{
    c_panel::rembulfose_write_message(side, ty, list, src, out)
}

#[unsafe(no_mangle)]
pub extern "C" fn rembulfose_compile(descriptor: &[u8], root: &[u8], plan: &mut [u8]) -> Answer
    ensures { CompilesPlan descriptor.now root.now result plan.old plan.new }
{
    c_panel::rembulfose_compile(descriptor, root, plan)
}

#[unsafe(no_mangle)]
pub extern "C" fn rembulfose_run(plan: &[u8], value: &[u8], list: &mut [u8]) -> Answer
    ensures { RunsValue plan.now value.now result list.old list.new }
{
    c_panel::rembulfose_run(plan, value, list)
}

#[unsafe(no_mangle)]
pub extern "C" fn rembulfose_find(plan: &[u8], value: &[u8], path: &[u8]) -> Answer
    ensures { result ≡ find_answer (find_from plan.now value.now path.now) }
{
    c_panel::rembulfose_find(plan, value, path)
}

#[unsafe(no_mangle)]
pub extern "C" fn rembulfose_find_number(plan: &[u8], value: &[u8], path: &[u8]) -> Number
    ensures { result ≡ number_answer (number_from plan.now value.now path.now) }
{
    c_panel::rembulfose_find_number(plan, value, path)
}

#[unsafe(no_mangle)]
pub extern "C" fn rembulfose_write_value(
    plan: &[u8],
    list: &[u8],
    src: &[u8],
    out: &mut [u8],
) -> Answer
    ensures { WritesValue plan.now list.now src.now result out.old out.new }
{
    c_panel::rembulfose_write_value(plan, list, src, out)
}
