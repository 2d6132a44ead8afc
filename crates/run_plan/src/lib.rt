// Runs a plan over a value: checks it and lists it.
#![tactic(auto)]

ghost use Rattle.std.specs.Prelude.{◌≡◌, length, ◌≤◌, true};
ghost use Rattle.plan_nodes.specs.Memo.{Memo};
ghost use Rattle.run_plan.specs.Run.{early_fault, Gives, Checks};
ghost use Rattle.protocol.specs.Plans.{plan_formed};
ghost use Rattle.protocol.specs.Running.{list_roomed, value_by, checked, run_of};

use forms::fault::{Fault, Refusal};
use plan_nodes::needs::Need;

// How many sparse objects the short table of required elements has room for. Few plans have so many.
const SHORT: usize = 32;

// The refusals before the value is looked at: a plan that is not well formed (33), and a value of over 65,535 bytes (28).
fn early_fault(plan: &[u32], value: &[u8]) -> Result<(), Fault>
    ensures { result ≡ early_fault plan.now value.now }
{
    if !plan_check::plan_ok(plan) {
        return Err(Fault::BAD_PLAN);
    }
    if constants::MOST_VALUE < value.len() {
        return Err(Fault::VALUE_SIZE);
    }
    Ok(())
}

// A value by a plan that is well formed. `needs` says how many elements of the plan's sparse objects are required.
fn check_value(
    plan: &[u32],
    needs: &[Need],
    value: &[u8],
    scratch: &mut [u32],
) -> Result<u32, Refusal>
    requires { (plan_formed plan.now ≡ true) × (length value.now ≤ 65535) × (Memo plan.now needs.now) }
    ensures { Checks (length value.now) (value_by plan.now value.now) result scratch.old scratch.new }
{
    let root = plan[1] as usize;
    if root == 0 {
        if value.len() == 0 {
            return Ok(0);
        }
        return Err(Fault::VALUE_LEFT.at(0));
    }
    let words = value_walk::walk_value(plan, needs, root, 0, 0, value, scratch, 0)?;
    Ok(words as u32)
}

// The same with room in the table for all the sparse objects that a plan can have: 1,024 nodes.
fn check_many(plan: &[u32], value: &[u8], scratch: &mut [u32]) -> Result<u32, Refusal>
    requires { (plan_formed plan.now ≡ true) × (length value.now ≤ 65535) }
    ensures { Checks (length value.now) (value_by plan.now value.now) result scratch.old scratch.new }
{
    let mut table = [Need::NONE; constants::MOST_BLOCKS];
    let count = plan_nodes::needs::fill(plan, &mut table);
    check_value(plan, &table[..count], value, scratch)
}

// Judges a value by a plan and counts the words of its list: the whole answer but for the list's room. An accepted value's words are
// left in the scratch room, as far as it goes. A short table takes little time to clear; one that is filled to its end may have lost a
// need, and then a long one is made.
pub fn check(plan: &[u32], value: &[u8], scratch: &mut [u32]) -> Result<u32, Refusal>
    ensures { Checks (length value.now) (checked plan.now value.now) result scratch.old scratch.new }
{
    if let Err(fault) = early_fault(plan, value) {
        return Err(fault.at(0));
    }
    let mut table = [Need::NONE; SHORT];
    let count = plan_nodes::needs::fill(plan, &mut table);
    if count < SHORT {
        return check_value(plan, &table[..count], value, scratch);
    }
    check_many(plan, value, scratch)
}

// A run by a plan that is well formed: a first pass checks and counts, a second lists.
fn run_value(plan: &[u32], needs: &[Need], value: &[u8], list: &mut [u32]) -> Result<u32, Refusal>
    requires { (plan_formed plan.now ≡ true) × (length value.now ≤ 65535) × (Memo plan.now needs.now) }
    ensures { Gives (list_roomed (length list.old) (value_by plan.now value.now)) result list.old list.new }
{
    let mut none = [0u32; 0];
    let words = check_value(plan, needs, value, &mut none)?;
    if list.len() < words as usize {
        return Err(Fault::LIST_ROOM.at(0));
    }
    check_value(plan, needs, value, list)
}

// The same with room in the table for all the sparse objects that a plan can have.
fn run_many(plan: &[u32], value: &[u8], list: &mut [u32]) -> Result<u32, Refusal>
    requires { (plan_formed plan.now ≡ true) × (length value.now ≤ 65535) }
    ensures { Gives (list_roomed (length list.old) (value_by plan.now value.now)) result list.old list.new }
{
    let mut table = [Need::NONE; constants::MOST_BLOCKS];
    let count = plan_nodes::needs::fill(plan, &mut table);
    run_value(plan, &table[..count], value, list)
}

// Runs a plan over a value. The plan is checked once and its table is made once, for both passes over the value.
pub fn run(plan: &[u32], value: &[u8], list: &mut [u32]) -> Result<u32, Refusal>
    ensures { Gives (run_of plan.now value.now (length list.old)) result list.old list.new }
{
    if let Err(fault) = early_fault(plan, value) {
        return Err(fault.at(0));
    }
    let mut table = [Need::NONE; SHORT];
    let count = plan_nodes::needs::fill(plan, &mut table);
    if count < SHORT {
        return run_value(plan, &table[..count], value, list);
    }
    run_many(plan, value, list)
}
