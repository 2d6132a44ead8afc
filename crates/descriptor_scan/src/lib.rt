// The blocks of a descriptor, one after another. What the rules ask of an earlier block is kept in three words; its node's words go into the
// plan, as far as it has room.
#![tactic(auto)]

ghost use Rattle.std.specs.Prelude.{◌≡◌, ◌+◌, ◌*◌, ◌≤◌, ◌<◌, length};
ghost use Rattle.descriptor_blocks.specs.Descriptor.{blocks_of};
ghost use Rattle.descriptor_fields.specs.Arrays.{Told, Roomy, elements_of};
ghost use Rattle.descriptor_scan.specs.Scan.{tag_check, Adds, Scans};

use descriptor_blocks::block;
use descriptor_fields::earlier::Earlier;
use descriptor_fields::{Draft, kinds};
use forms::fault::{Fault, Refusal};

// What the reading of the blocks leaves: how many there are, and where the plan ends.
#[derive(Clone, Copy)]
pub struct Scanned {
    pub count: usize,
    pub end: usize,
}

// The rule of a tag after n indexed blocks: 11 if it is unknown, 17 if the block is one too many.
#[tactic(auto, using(std::proofs::lemmas::Bool::Decides::nat_tests), unfolding(crate::specs::Scan::tag_check, descriptor_fields::specs::Layouts::indexed, protocol::specs::Numbers::pick))]
fn check_tag(tag: u32, n: usize) -> Result<(), Fault>
    ensures { result ≡ tag_check tag n }
{
    if !kinds::is_known(tag) {
        return Err(Fault::UNKNOWN_TAG);
    }
    if tag != constants::TAG_ANNOTATION && constants::MOST_BLOCKS <= n {
        return Err(Fault::DESCRIPTOR_SIZE);
    }
    Ok(())
}

// A block more: its node, and what is known of it from then on.
fn add(
    d: &[u8],
    known: &mut [u32],
    n: usize,
    at: usize,
    x: Draft,
    elements: &[u32],
    plan: &mut [u32],
    to: usize,
) -> usize
    requires { (Told d.now known.old n) × (Roomy elements.now x.count) × (to ≤ 2097152) × (n < 1024) × (3072 ≤ length known.old) × (at + 17 ≤ length d.now) × (x.height ≤ 32) }
    ensures { Adds d.now n at x (elements_of elements.now x.count) to result known.old known.new plan.old plan.new }
{
    let tag = u32::from(d[at]);
    let earlier = Earlier { d, known, n };
    let end = descriptor_nodes::put_node(earlier, tag, x, elements, plan, to);
    let k = 3 * n;
    known[k] = at as u32;
    known[k + 1] = x.height;
    known[k + 2] = to as u32;
    end
}

// Reads the blocks.
pub fn read(
    d: &[u8],
    known: &mut [u32],
    elements: &mut [u32],
    plan: &mut [u32],
) -> Result<Scanned, Refusal>
    requires { (length d.now ≤ 65535) × (3072 ≤ length known.old) × (1536 ≤ length elements.old) }
    ensures { Scans d.now (blocks_of d.now) result known.new plan.old plan.new }
{
    let mut n: usize = 0;
    let mut at: usize = 0;
    let mut to: usize = 2;
    while at < d.len() {
        let tag = u32::from(d[at]);
        match check_tag(tag, n) {
            Ok(()) => {}
            Err(fault) => return Err(fault.at(at as u32)),
        }
        let earlier = Earlier { d, known, n };
        let x = match block::read(earlier, tag, at + 1, elements) {
            Ok(x) => x,
            Err(fault) => return Err(fault.at(at as u32)),
        };
        if tag != constants::TAG_ANNOTATION {
            to = add(d, known, n, at, x, elements, plan, to);
            n += 1;
        }
        at = x.at;
    }
    Ok(Scanned { count: n, end: to })
}
