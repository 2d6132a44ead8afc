// How numbers, byte runs and words cross to the panel's C host: what a call answers (R9.8), and words as bytes (R9.3).
#![tactic(auto)]

ghost use Rattle.std.specs.Prelude.{◌≡◌, ◌++◌, ◌+◌, ◌*◌, ◌≤◌, leb, length, take};
ghost use Rattle.std.proofs.lemmas.List.Edits.{sets};
ghost use Rattle.c_words.specs.Answers.{WordsOut};
ghost use Rattle.protocol.specs.Crossing.{words_in, bytes_out, crosses, word_room};

use forms::Answer;
use forms::fault::Fault;

// Calls with few words do with an array of this many, which is quicker to clear than one of MOST_WORDS.
pub const FEW: usize = 1024;

// The most words of two runs together.
pub const BOTH: usize = 2 * constants::MOST_WORDS;

// Whether n bytes are whole words, and not too many.
pub fn whole_words(n: usize) -> bool
    ensures { result ≡ crosses n }
{
    n % 4 == 0 && n <= constants::ROOM
}

// The room for words in n bytes.
pub fn word_room(n: usize) -> usize
    ensures { result ≡ word_room n }
{
    if n <= constants::ROOM {
        n / 4
    } else {
        constants::MOST_WORDS
    }
}

// The words of the bytes, put at the start of `words`.
pub fn take_words(bytes: &[u8], words: &mut [u32])
    requires { length bytes.now ≤ 4 * length words.old }
    ensures { words.new ≡ sets words.old 0 (words_in bytes.now) }
{
    for i in 0..bytes.len() / 4 {
        words[i] = wire::be::u32_at(bytes, 4 * i);
    }
}

// Whether runs of n and of m bytes are few words together.
pub fn few_words(n: usize, m: usize) -> bool
    ensures { result ≡ leb (n + m) 4096 }
{
    n <= 4 * FEW && m <= 4 * FEW - n
}

// The words of two runs of bytes, the first run's and then the second's, put at the start of `words`.
pub fn take_both(first: &[u8], second: &[u8], words: &mut [u32])
    requires { length first.now + length second.now ≤ 4 * length words.old }
    ensures { words.new ≡ sets words.old 0 (words_in first.now ++ words_in second.now) }
{
    take_words(first, words);
    let n = first.len() / 4;
    take_words(second, &mut words[n..]);
}

// The bytes of the words, put at the start of `out`.
pub fn put_words(words: &[u32], out: &mut [u8])
    requires { 4 * length words.now ≤ length out.old }
    ensures { out.new ≡ sets out.old 0 (bytes_out words.now) }
{
    for (i, word) in words.iter().enumerate() {
        wire::be::put_u32(out, 4 * i, *word);
    }
}

// The answer of a call whose result is the first `words` of scratch room: they go out as bytes if `out` has the room for them, else the
// call is refused with `fault`.
pub fn put_answer(fault: Fault, scratch: &[u32], words: u32, out: &mut [u8]) -> Answer
    requires { words ≤ word_room (length out.old) → words ≤ length scratch.now }
    ensures { WordsOut fault words (take words scratch.now) result out.old out.new }
{
    let n = words as usize;
    if word_room(out.len()) < n {
        return Answer::from(fault.at(0));
    }
    put_words(&scratch[..n], out);
    Answer::success(words, 0)
}
