// The entries of a supply's list.
ghost use Rattle.std.specs.Prelude.{◌≡◌, drop};
ghost use Rattle.supply_entries.specs.Emitting.{read_of, known};
ghost use Rattle.protocol.specs.Supplies.{next_of};

use crate::Entry;

// Which word of an entry is its index.
pub const INDEX: usize = 1;

// The entry at a word of the list, if its words are all there.
pub fn next_entry(list: &[u32], word: usize) -> Option<Entry>
    ensures { result ≡ read_of (next_of (drop word list.now)) }
{
    let &[node, index, start, size, count, ..] = list.get(word..)? else {
        return None;
    };
    Some(Entry {
        node,
        index,
        start,
        size,
        count,
    })
}

// The same of a sparse object with n elements, whose entries say their index: one that the object does not have counts as none.
pub fn known_entry(list: &[u32], word: usize, n: usize) -> Option<Entry>
    ensures { result ≡ read_of (known n (next_of (drop word list.now))) }
{
    let entry = next_entry(list, word)?;
    ((entry.index as usize) < n).then_some(entry)
}
