// The calls of the panel's C host, under their C names. Each is one call of the crate of its subject, whose contract it has.
// They are a library, on which the page of theorems stands; the crate c_panel_c hands them to C.
#![tactic(auto)]

ghost use Rattle.std.specs.Prelude.{◌≡◌};
ghost use Rattle.protocol.specs.Crossing.{ReadsMessage, WritesMessage, RunsValue, CompilesPlan, find_from, find_answer, number_from, number_answer, WritesValue};
ghost use Rattle.protocol.specs.Intake.{intake_start, intake_reset, TakesDelivery};

use forms::{Answer, Delivery, Intake, Number};

// Reads the message at the start of src; the list's words go out as bytes.
pub fn rembulfose_read_message(side: u32, src: &[u8], list: &mut [u8]) -> Answer
    ensures { ReadsMessage side src.now result list.old list.new }
{
    c_message::read_message(side, src, list)
}

// The state of an intake, for a side and the length of its room.
pub fn rembulfose_intake_start(side: u32, room: usize) -> Intake
    ensures { result ≡ intake_start side room }
{
    Intake::start(side, room)
}

// The state of an intake with what it holds and what was refused dropped.
pub fn rembulfose_intake_reset(intake: Intake) -> Intake
    ensures { result ≡ intake_reset intake }
{
    intake.reset()
}

// Takes bytes from the front of src until a message is whole, which then stands at the front of the room, or src ends.
pub fn rembulfose_intake_take(intake: Intake, src: &[u8], room: &mut [u8]) -> Delivery
    ensures { TakesDelivery intake src.now result room.old room.new }
{
    message_intake::take(intake, src, room)
}

// Writes the message of a type byte whose fields hold the bytes of src that the list's pairs name.
pub fn rembulfose_write_message(
    side: u32,
    ty: u8,
    list: &[u8],
    src: &[u8],
    out: &mut [u8],
) -> Answer
    ensures { WritesMessage side ty list.now src.now result out.old out.new }
{
    c_message::write_message(side, ty, list, src, out)
}

// Compiles a descriptor's plan for the block with the id of `root`.
pub fn rembulfose_compile(descriptor: &[u8], root: &[u8], plan: &mut [u8]) -> Answer
    ensures { CompilesPlan descriptor.now root.now result plan.old plan.new }
{
    c_compile::compile_plan(descriptor, root, plan)
}

// Checks a value by a plan and lists it.
pub fn rembulfose_run(plan: &[u8], value: &[u8], list: &mut [u8]) -> Answer
    ensures { RunsValue plan.now value.now result list.old list.new }
{
    c_run::run_value(plan, value, list)
}

// Finds the element that a path leads to.
pub fn rembulfose_find(plan: &[u8], value: &[u8], path: &[u8]) -> Answer
    ensures { result ≡ find_answer (find_from plan.now value.now path.now) }
{
    c_find::find_element(plan, value, path)
}

// The number of the element that a path leads to.
pub fn rembulfose_find_number(plan: &[u8], value: &[u8], path: &[u8]) -> Number
    ensures { result ≡ number_answer (number_from plan.now value.now path.now) }
{
    c_number::find_number(plan, value, path)
}

// Writes the value of a plan that has the supply of a list and source bytes.
pub fn rembulfose_write_value(plan: &[u8], list: &[u8], src: &[u8], out: &mut [u8]) -> Answer
    ensures { WritesValue plan.now list.now src.now result out.old out.new }
{
    c_supply::write_value(plan, list, src, out)
}
