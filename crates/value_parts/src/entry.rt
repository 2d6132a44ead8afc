// The words of a list.
ghost use Rattle.std.specs.Prelude.{◌≡◌, ◌^◌, ◌<◌, ◌≤◌};
ghost use Rattle.std.proofs.lemmas.List.Edits.{sets};
ghost use Rattle.protocol.specs.Lists.{entry_words, entry_of};

use wire::words;

// The words of an entry at the list's end, each if there is room for it.
#[tactic(auto, using(crate::proofs::Entries::five))]
fn put_part(list: &mut [u32], at: usize, node: u32, index: u32, start: u32, size: u32, count: u32)
    requires { at ≤ 131072 }
    ensures { list.new ≡ sets list.old at (entry_words (entry_of node index start size) count) }
{
    words::put_word(list, at, node);
    words::put_word(list, at + 1, index);
    words::put_word(list, at + 2, start);
    words::put_word(list, at + 3, size);
    words::put_word(list, at + 4, count);
}

// The words of an entry, as far as the list has room: mostly there is room for all, and one test says so. Kept: plain parameters, since a
// caller has the five numbers at hand, and a struct of words would ask five casts of each.
#[tactic(auto, using(crate::proofs::Entries::kept_length))]
pub fn put_entry(
    list: &mut [u32],
    at: usize,
    node: usize,
    index: usize,
    start: usize,
    size: usize,
    count: usize,
)
    requires { (at ≤ 131072) × (node < 2 ^ 32) × (index < 2 ^ 32) × (start < 2 ^ 32) × (size < 2 ^ 32) × (count < 2 ^ 32) }
    ensures { list.new ≡ sets list.old at (entry_words (entry_of node index start size) count) }
{
    if at + constants::ENTRY_WORDS <= list.len() {
        list[at] = node as u32;
        list[at + 1] = index as u32;
        list[at + 2] = start as u32;
        list[at + 3] = size as u32;
        list[at + 4] = count as u32;
        return;
    }
    put_part(
        list,
        at,
        node as u32,
        index as u32,
        start as u32,
        size as u32,
        count as u32,
    );
}
