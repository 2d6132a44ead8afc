// Writes a value from a supply: the value of R8.4, with reserved fields zero (R8.5). The bytes go into scratch room first, since a refusal may
// change no byte of the output (R1.1).
#![tactic(auto)]

ghost use Rattle.std.specs.Prelude.{◌≡◌, ◌≤◌, true, length};
ghost use Rattle.plan_nodes.specs.Memo.{Memo};
ghost use Rattle.supply_entries.specs.Emitting.{put_at, stand_of};
ghost use Rattle.supply_write.specs.Answers.{Puts};
ghost use Rattle.protocol.specs.Plans.{look, plan_formed};
ghost use Rattle.plan_nodes.specs.Readers.{At};
ghost use Rattle.protocol.specs.Building.{build_of, made_by, write_of};

use forms::fault::Fault;
use plan_nodes::needs::Need;
use supply_entries::{Built, list};

// How many sparse objects the short table of required elements has room for. Few plans have so many.
const SHORT: usize = 32;

// The value of a node that is the top of its plan, from the list's first entry, whose index is 0 (R6.3). The top may not be absent (R8.8).
// `needs` says how many elements of the plan's sparse objects are required.
fn build_top(
    plan: &[u32],
    needs: &[Need],
    node: usize,
    src: &[u8],
    list: &[u32],
    out: &mut [u8],
) -> Option<Built>
    requires { (At plan.now node) × (Memo plan.now needs.now) }
    ensures { stand_of result list.now out.new ≡ put_at (build_of src.now (look plan.now) node 0 list.now) 0 out.old }
{
    let entry = list::next_entry(list, 0)?;
    if entry.index != 0 || entry.size == constants::ABSENT {
        return None;
    }
    supply_build::build_value(plan, needs, node, src, list, entry, 0, out, 0)
}

// The value of a well-formed plan. No type has no node, and the supply of no words (R8.11).
fn build_whole(
    plan: &[u32],
    needs: &[Need],
    src: &[u8],
    list: &[u32],
    out: &mut [u8],
) -> Option<Built>
    requires { (plan_formed plan.now ≡ true) × (Memo plan.now needs.now) }
    ensures { stand_of result list.now out.new ≡ put_at (made_by plan.now list.now src.now) 0 out.old }
{
    let root = plan[1] as usize;
    if root == 0 {
        return Some(Built { word: 0, at: 0 });
    }
    build_top(plan, needs, root, src, list, out)
}

// The value of a plan that is well formed. One pass judges, measures and puts the bytes into scratch room, from where they go out. A value
// that is larger than the scratch room is put out by a second pass.
fn write_value(
    plan: &[u32],
    needs: &[Need],
    list: &[u32],
    src: &[u8],
    scratch: &mut [u8],
    out: &mut [u8],
) -> Result<u32, Fault>
    requires { (plan_formed plan.now ≡ true) × (Memo plan.now needs.now) }
    ensures { Puts (write_of plan.now list.now src.now (length out.old)) result out.old out.new }
{
    let built = build_whole(plan, needs, src, list, scratch).ok_or(Fault::NO_VALUE)?;
    if built.word < list.len() {
        return Err(Fault::NO_VALUE);
    }
    if out.len() < built.at {
        return Err(Fault::OUTPUT_ROOM);
    }
    if scratch.len() < built.at {
        build_whole(plan, needs, src, list, out);
    } else {
        wire::copy::put_bytes(&scratch[..built.at], out, 0);
    }
    Ok(built.at as u32)
}

// The same with scratch room of a size. Each size has a frame of its own, so that only the room that is used is cleared and takes stack.
#[inline(never)]
fn write_with<const ROOM: usize>(
    plan: &[u32],
    needs: &[Need],
    list: &[u32],
    src: &[u8],
    out: &mut [u8],
) -> Result<u32, Fault>
    requires { (plan_formed plan.now ≡ true) × (Memo plan.now needs.now) × (ROOM ≤ 65535) }
    ensures { Puts (write_of plan.now list.now src.now (length out.old)) result out.old out.new }
{
    let mut scratch = [0u8; ROOM];
    write_value(plan, needs, list, src, &mut scratch, out)
}

// The same with the scratch room that is likely to be enough, by the sizes of the list and of the source: to clear much of it would cost a
// small value more than the value itself. Most entries, of five words, make a head of at most ten bytes, and most values use no byte of the
// source twice. Only the time depends on it.
fn write_sized(
    plan: &[u32],
    needs: &[Need],
    list: &[u32],
    src: &[u8],
    out: &mut [u8],
) -> Result<u32, Fault>
    requires { (plan_formed plan.now ≡ true) × (Memo plan.now needs.now) }
    ensures { Puts (write_of plan.now list.now src.now (length out.old)) result out.old out.new }
{
    if list.len() <= 1024 && src.len() <= 2048 {
        return write_with::<4096>(plan, needs, list, src, out);
    }
    if list.len() <= 4096 && src.len() <= 8192 {
        return write_with::<16384>(plan, needs, list, src, out);
    }
    write_with::<{ constants::MOST_VALUE }>(plan, needs, list, src, out)
}

// The same with room in the table for all the sparse objects that a plan can have: 1,024 nodes.
fn write_many(plan: &[u32], list: &[u32], src: &[u8], out: &mut [u8]) -> Result<u32, Fault>
    requires { plan_formed plan.now ≡ true }
    ensures { Puts (write_of plan.now list.now src.now (length out.old)) result out.old out.new }
{
    let mut table = [Need::NONE; constants::MOST_BLOCKS];
    let count = plan_nodes::needs::fill(plan, &mut table);
    write_sized(plan, &table[..count], list, src, out)
}

// Writes the value of a plan that has the supply of a list and source bytes, in the order of R1.10. The plan is checked once and its table is
// made once. A short table takes little time to clear; one that is filled to its end may have lost a need, and then a long one is made.
pub fn write(plan: &[u32], list: &[u32], src: &[u8], out: &mut [u8]) -> Result<u32, Fault>
    ensures { Puts (write_of plan.now list.now src.now (length out.old)) result out.old out.new }
{
    if !plan_check::plan_ok(plan) {
        return Err(Fault::BAD_PLAN);
    }
    let mut table = [Need::NONE; SHORT];
    let count = plan_nodes::needs::fill(plan, &mut table);
    if count == SHORT {
        return write_many(plan, list, src, out);
    }
    write_sized(plan, &table[..count], list, src, out)
}
