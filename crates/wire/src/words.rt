// Words lent by the caller, and the codes that a word may be.
ghost use Rattle.std.specs.Prelude.{◌≡◌, get_or, set};
ghost use Rattle.protocol.specs.Messages.{is_cardinality};

// A word as a size.
pub fn wide(x: u32) -> usize
    ensures { result ≡ x }
{
    x as usize
}

// A word of a run, 0 past its end.
pub fn word_at(words: &[u32], at: usize) -> u32
    ensures { result ≡ get_or words.now at 0 }
{
    words.get(at).copied().unwrap_or(0)
}

// A word at a position, if the list has it.
pub fn put_word(list: &mut [u32], at: usize, word: u32)
    ensures { list.new ≡ set list.old at word }
{
    // Kept: what is stored through `get_mut` has no clause.
    if at < list.len() {
        list[at] = word;
    }
}

// Whether a word is one of the five cardinalities (R2.10).
pub fn is_cardinality(c: u32) -> bool
    ensures { result ≡ is_cardinality c }
{
    matches!(
        c,
        constants::CARDINALITY_NONE
            | constants::CARDINALITY_AT_MOST_ONE
            | constants::CARDINALITY_ONE
            | constants::CARDINALITY_MANY
            | constants::CARDINALITY_AT_LEAST_ONE
    )
}
