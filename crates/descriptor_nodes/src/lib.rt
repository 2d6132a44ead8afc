// The words of a block's node in the plan, stored as far as the plan has room.
#![tactic(auto)]

ghost use Rattle.std.specs.Prelude.{◌≡◌, ◌∷◌, [], map, ◌≤◌, get_or};
ghost use Rattle.std.proofs.lemmas.List.Edits.{sets};
ghost use Rattle.descriptor_fields.specs.Fields.{no_block, format_number};
ghost use Rattle.descriptor_blocks.specs.Descriptor.{refs, cards, only_ref, node_at, words_of};
ghost use Rattle.descriptor_fields.specs.Arrays.{Roomy, elements_of};
ghost use Rattle.descriptor_fields.specs.Earlier.{before};
ghost use Rattle.descriptor_nodes.specs.Nodes.{Puts, single_kind, single_words, many_kind, many_words};
ghost use Rattle.protocol.specs.Compiling.{ref_cards};

use descriptor_fields::earlier::Earlier;
use descriptor_fields::{Draft, kinds};
use wire::words::{put_word, wide};

// The word at which an earlier block's node starts; 0 of a block that is not there.
pub fn node_at(earlier: Earlier, r: u32) -> u32
    ensures { result ≡ node_at (before earlier.entry) r }
{
    let i = wide(r);
    if i < earlier.n { earlier.node(i) } else { 0 }
}

// The block that a set, an array or a range refers to.
fn only_ref(elements: &[u32], count: usize) -> u32
    requires { Roomy elements.now count }
    ensures { result ≡ only_ref (elements_of elements.now count) }
{
    if count == 0 { 0 } else { elements[1] }
}

// The tag of an earlier block; 0 of a block that is not there.
fn tag_at(earlier: Earlier, r: u32) -> u32
    ensures { result ≡ (get_or (before earlier.entry) r no_block).tag }
{
    let i = wide(r);
    if i < earlier.n { earlier.tag(i) } else { 0 }
}

// Two words.
pub fn put_two(plan: &mut [u32], to: usize, a: u32, b: u32)
    requires { to ≤ 4294967296 }
    ensures { plan.new ≡ sets plan.old to (a ∷ b ∷ []) }
{
    put_word(plan, to, a);
    put_word(plan, to + 1, b);
}

// The references of a tuple.
fn put_refs(earlier: Earlier, elements: &[u32], count: usize, plan: &mut [u32], to: usize)
    requires { (Roomy elements.now count) × (to ≤ 4194304) }
    ensures { plan.new ≡ sets plan.old to (map (node_at (before earlier.entry)) (refs (elements_of elements.now count))) }
{
    for k in 0..count {
        put_word(plan, to + k, node_at(earlier, elements[3 * k + 1]));
    }
}

// The references and cardinalities of an object.
fn put_pairs(earlier: Earlier, elements: &[u32], count: usize, plan: &mut [u32], to: usize)
    requires { (Roomy elements.now count) × (to ≤ 4194304) }
    ensures { plan.new
        ≡ sets plan.old to
        (ref_cards (map (node_at (before earlier.entry)) (refs (elements_of elements.now count))) (cards (elements_of elements.now count))) }
{
    for k in 0..count {
        let node = node_at(earlier, elements[3 * k + 1]);
        put_two(plan, to + 2 * k, node, elements[3 * k + 2]);
    }
}

// The first word of a node with one reference.
#[tactic(auto, using(std::proofs::lemmas::Bool::Decides::nat_tests), unfolding(crate::specs::Nodes::single_kind, protocol::specs::Numbers::pick))]
fn single_kind(earlier: Earlier, tag: u32, r: u32) -> u32
    ensures { result ≡ single_kind (before earlier.entry) tag r }
{
    match tag {
        constants::TAG_RANGE => constants::KIND_RANGE,
        constants::TAG_SET if tag_at(earlier, r) == constants::TAG_ARRAY => {
            constants::KIND_SET_OF_ARRAYS
        }
        _ => constants::KIND_SET_OR_ARRAY,
    }
}

// A node with one reference.
fn put_single(earlier: Earlier, tag: u32, r: u32, plan: &mut [u32], to: usize)
    requires { to ≤ 4194304 }
    ensures { plan.new ≡ sets plan.old to (single_words (before earlier.entry) tag r) }
{
    let kind = single_kind(earlier, tag, r);
    put_two(plan, to, kind, node_at(earlier, r));
}

// The first word of a node with many references.
#[tactic(auto, using(std::proofs::lemmas::Bool::Decides::nat_tests), unfolding(crate::specs::Nodes::many_kind, protocol::specs::Numbers::pick))]
fn many_kind(tag: u32) -> u32
    ensures { result ≡ many_kind tag }
{
    match tag {
        constants::TAG_OUTPUT_SHAPE => constants::KIND_OUTPUT_OBJECT,
        constants::TAG_INPUT_SHAPE => constants::KIND_INPUT_OBJECT,
        _ => constants::KIND_TUPLE,
    }
}

// A node with many references.
fn put_many(
    earlier: Earlier,
    tag: u32,
    elements: &[u32],
    count: usize,
    plan: &mut [u32],
    to: usize,
) -> usize
    requires { (Roomy elements.now count) × (to ≤ 2097152) }
    ensures { Puts (many_words (before earlier.entry) tag (elements_of elements.now count)) to result plan.old plan.new }
{
    let kind = many_kind(tag);
    put_two(plan, to, kind, count as u32);
    if kind == constants::KIND_TUPLE {
        put_refs(earlier, elements, count, plan, to + 2);
        return to + 2 + count;
    }
    put_pairs(earlier, elements, count, plan, to + 2);
    to + 2 + 2 * count
}

// A format as a word. A block that was read whole has one.
fn format_word(format: Option<u32>) -> u32
    ensures { result ≡ format_number format }
{
    format.unwrap_or(constants::FORMATS)
}

// The node of a block with values: where the next one starts.
pub fn put_node(
    earlier: Earlier,
    tag: u32,
    x: Draft,
    elements: &[u32],
    plan: &mut [u32],
    to: usize,
) -> usize
    requires { (Roomy elements.now x.count) × (to ≤ 2097152) }
    ensures { Puts (words_of (before earlier.entry) tag (format_number x.format) (elements_of elements.now x.count)) to result plan.old plan.new }
{
    if !kinds::has_values(tag) {
        return to;
    }
    match tag {
        constants::TAG_SCALAR => {
            put_two(plan, to, constants::KIND_LEAF, format_word(x.format));
            to + 2
        }
        constants::TAG_ENUMERATION => {
            put_word(plan, to, constants::KIND_ENUMERATION);
            to + 1
        }
        constants::TAG_SET | constants::TAG_ARRAY | constants::TAG_RANGE => {
            put_single(earlier, tag, only_ref(elements, x.count), plan, to);
            to + 2
        }
        _ => put_many(earlier, tag, elements, x.count, plan, to),
    }
}
