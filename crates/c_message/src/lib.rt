// Reading and writing a message.
#![tactic(auto)]

ghost use Rattle.std.specs.Prelude.{◌≡◌, true, ◌*◌, ◌≤◌, length};
ghost use Rattle.std.proofs.lemmas.List.Edits.{sets};
ghost use Rattle.c_message.specs.Messages.{Listable};
ghost use Rattle.protocol.specs.Messages.{layout_of, message_of, message_words};
ghost use Rattle.protocol.specs.Crossing.{bytes_out, crosses, put_answer, uncrossed_list, ReadsMessage, WritesMessage};

use forms::Answer;
use forms::fault::Fault;

// The words of an accepted message that has many, put into the list as bytes.
fn list_many(side: u32, src: &[u8], n: usize, list: &mut [u8])
    requires { Listable side src.now n list.old }
    ensures { list.new ≡ sets list.old 0 (bytes_out (message_words (message_of side src.now))) }
{
    let mut words = [0u32; constants::MOST_WORDS];
    message_read::fill(side, src, &mut words);
    c_words::put_words(&words[..n], list);
}

// Reads the message at the start of src; the list's words go out as bytes. Few words are at hand after the check, in room of its own.
pub fn read_message(side: u32, src: &[u8], list: &mut [u8]) -> Answer
    ensures { ReadsMessage side src.now result list.old list.new }
{
    let mut few = [0u32; c_words::FEW];
    let read = match message_read::check(side, src, &mut few) {
        Ok(read) => read,
        Err(refusal) => return Answer::from(refusal),
    };
    let n = read.words as usize;
    if c_words::word_room(list.len()) < n {
        return Answer::from(Fault::LIST_ROOM.at(0));
    }
    if n <= c_words::FEW {
        c_words::put_words(&few[..n], list);
    } else {
        list_many(side, src, n, list);
    }
    Answer::success(read.used, read.words)
}

// Writes a message from a list that crosses, in room for N words.
fn write_crossed<const N: usize>(
    side: u32,
    ty: u8,
    list: &[u8],
    src: &[u8],
    out: &mut [u8],
) -> Answer
    requires { (crosses (length list.now) ≡ true) × (length list.now ≤ 4 * N) × (N ≤ 8192) }
    ensures { WritesMessage side ty list.now src.now result out.old out.new }
{
    let mut words = [0u32; N];
    c_words::take_words(list, &mut words);
    match message_write::write(side, ty, &words[..list.len() / 4], src, out) {
        Ok(len) => Answer::success(len, 0),
        Err(fault) => Answer::from(fault.at(0)),
    }
}

// A list that does not cross: 3 comes before its 6.
fn uncrossed_list(side: u32, ty: u8) -> Answer
    ensures { result ≡ put_answer (uncrossed_list (layout_of side ty)) }
{
    match message_layout::start_of(side, ty) {
        None => Answer::from(Fault::UNKNOWN_TYPE.at(0)),
        Some(_) => Answer::from(Fault::BAD_FIELD.at(0)),
    }
}

// Writes the message of a type byte whose fields hold the bytes of src that the list's pairs name.
pub fn write_message(side: u32, ty: u8, list: &[u8], src: &[u8], out: &mut [u8]) -> Answer
    ensures { WritesMessage side ty list.now src.now result out.old out.new }
{
    if !c_words::whole_words(list.len()) {
        return uncrossed_list(side, ty);
    }
    if list.len() <= 4 * c_words::FEW {
        return write_crossed::<{ c_words::FEW }>(side, ty, list, src, out);
    }
    write_crossed::<{ constants::MOST_WORDS }>(side, ty, list, src, out)
}
