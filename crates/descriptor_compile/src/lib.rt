// Compiling a descriptor's plan (R4.7 to R4.9), in the order of R1.8.
#![tactic(auto)]

ghost use Rattle.std.specs.Prelude.{◌≡◌, ◌≤◌, length};
ghost use Rattle.descriptor_fields.specs.Fields.{id_at};
ghost use Rattle.protocol.specs.Descriptors.{bare_form};
ghost use Rattle.descriptor_blocks.specs.Descriptor.{blocks_of, rooted, description_of, plan_of};
ghost use Rattle.descriptor_fields.specs.Earlier.{before};
ghost use Rattle.descriptor_compile.specs.Compile.{Gives};
ghost use Rattle.descriptor_compile.specs.Checking.{Checks, root_node};
ghost use Rattle.protocol.specs.Compiling.{compile_by};

use descriptor_fields::earlier::Earlier;
use descriptor_fields::kinds;
use descriptor_names::id;
use forms::fault::{Fault, Refusal};

// The word of the plan at which the node of the root's block starts: of the block with the id, if there is one and it has values.
fn root_node(earlier: Earlier, root: &[u8]) -> Option<u32>
    requires { 16 ≤ length root.now }
    ensures { result ≡ root_node earlier.entry.d.now (before earlier.entry) (id_at root.now 0) }
{
    let i = id::find(earlier, root, 0)?;
    if kinds::has_values(earlier.tag(i)) {
        return Some(earlier.node(i));
    }
    None
}

// A descriptor of blocks: they are read, the root is found, and the plan's first two words go in last.
fn check_blocks(
    d: &[u8],
    root: &[u8],
    known: &mut [u32],
    elements: &mut [u32],
    plan: &mut [u32],
) -> Result<u32, Refusal>
    requires { (length d.now ≤ 65535) × (3072 ≤ length known.old) × (1536 ≤ length elements.old) × (16 ≤ length root.now) }
    ensures { Checks (plan_of (rooted d.now (id_at root.now 0) (blocks_of d.now))) result plan.old plan.new }
{
    let scanned = descriptor_scan::read(d, known, elements, plan)?;
    let earlier = Earlier {
        d,
        known,
        n: scanned.count,
    };
    match root_node(earlier, root) {
        Some(first) => {
            let words = scanned.end as u32;
            descriptor_nodes::put_two(plan, 0, words, first);
            Ok(words)
        }
        None => Err(Fault::NO_ROOT.at(d.len() as u32)),
    }
}

// Judges a descriptor and counts the words of its plan: the whole answer but for the plan's room. An accepted descriptor's plan is left in
// the scratch room, as far as it goes.
pub fn check(d: &[u8], root: &[u8], scratch: &mut [u32]) -> Result<u32, Refusal>
    ensures { Checks (plan_of (description_of d.now root.now)) result scratch.old scratch.new }
{
    if constants::MOST_DESCRIPTOR < d.len() {
        return Err(Fault::DESCRIPTOR_SIZE.at(0));
    }
    let end = d.len() as u32;
    if root.len() != 16 {
        return Err(Fault::NO_ROOT.at(end));
    }
    if id::is_zero(root, 0) {
        if d.is_empty() {
            descriptor_nodes::put_two(scratch, 0, 2, 0);
            return Ok(2);
        }
        return Err(Fault::NO_ROOT.at(end));
    }
    let mut known = [0u32; 3 * constants::MOST_BLOCKS];
    let mut elements = [0u32; 3 * constants::MOST_ITEMS];
    check_blocks(d, root, &mut known, &mut elements, scratch)
}

// Compiles a descriptor's plan: a first pass judges and counts, a second writes.
pub fn compile(d: &[u8], root: &[u8], plan: &mut [u32]) -> Result<u32, Refusal>
    ensures { Gives (compile_by bare_form d.now root.now (length plan.old)) result plan.old plan.new }
{
    let words = check(d, root, &mut [])?;
    if plan.len() < words as usize {
        return Err(Fault::PLAN_ROOM.at(0));
    }
    check(d, root, plan)
}
