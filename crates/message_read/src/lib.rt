// Reading a message: one interpreter over the layouts' table. A first pass judges and counts, a second puts the words into the list.
// Where the caller lends scratch room, the first pass leaves the words there.
#![tactic(auto)]

ghost use Rattle.std.specs.Prelude.{◌≡◌, true, false, ◌+◌, ◌*◌, ◌≤◌, ◌<◌, length, Ok};
ghost use Rattle.std.proofs.lemmas.List.Edits.{sets};
ghost use Rattle.message_layout.specs.Tables.{codes, field_of, layout_at};
ghost use Rattle.message_layout.specs.Judged.{judged, judged_all};
ghost use Rattle.message_read.specs.Answers.{Checks, Gives, Accepted};
ghost use Rattle.message_read.specs.Scan.{put, led, item_of, outcome_of, Inside, Within};
ghost use Rattle.protocol.specs.Messages.{lengthened, textual, field_at, field_outcome, fields_read, message_end, message_of, message_call, message_words};

use forms::Span;
use forms::fault::{Fault, Refusal};

// Where a walk over a layout has come: the next byte, and the words of the list so far.
// Kept as numbers of four bytes, for speed: a refusal has two of these too, so that what a walk answers lies the same way in both cases. With
// larger ones the compiler joined parts of the two, and each field waited for what had just been stored: twice the time of a message of short fields.
#[derive(Clone, Copy)]
struct Reached {
    at: u32,
    words: u32,
}

// The content after a length.
fn content_at(m: &[u8], at: usize) -> Result<Span, Fault>
    requires { (at ≤ length m.now) × (length m.now ≤ 65536) }
    ensures value { result ≡ lengthened m.now at }
    ensures inside { Inside at (length m.now) result }
{
    let start = at + 4;
    if m.len() < start {
        return Err(Fault::FIELD_PAST_END);
    }
    let len = wire::be::u32_at(m, at) as usize;
    if m.len() < start + len {
        return Err(Fault::FIELD_PAST_END);
    }
    Ok(Span { start, len })
}

// Two words of the list at k, as far as it has room.
fn put_pair(list: &mut [u32], k: usize, x: usize, y: usize)
    requires { (k ≤ 131072) × (x ≤ 65536) × (y ≤ 65536) }
    ensures { list.new ≡ put list.old k x y }
{
    if k + 1 < list.len() {
        list[k] = x as u32;
        list[k + 1] = y as u32;
    } else if k < list.len() {
        list[k] = x as u32;
    }
}

// A whole message, the table of codes to go by, and whether content is judged or taken as it is.
#[derive(Clone, Copy)]
struct Reader<'a> {
    message: &'a [u8],
    table: &'a [u8],
    judge: bool,
    ghost sized: { length message.now ≤ 65536 },
    ghost coded: { table.now ≡ codes },
}

impl<'a> Reader<'a> {
    // A number field of the given code.
    fn number_at(&self, code: u8, at: usize) -> Result<Span, Fault>
        requires { (2 < code) × (code < 12) × (at ≤ length self.now.message.now) }
        ensures value { result ≡ field_at (judged self.now.judge (field_of code)) self.now.message.now at }
        ensures inside { Inside at (length self.now.message.now) result }
    {
        let len = message_layout::width_of(code);
        if self.message.len() < at + len {
            return Err(Fault::FIELD_PAST_END);
        }
        if self.judge && !message_layout::admits(self.message, at, code) {
            return Err(Fault::BAD_FIELD);
        }
        Ok(Span { start: at, len })
    }

    // A field of the given code at `at`. Text must be well formed.
    fn field_at(&self, code: u8, at: usize) -> Result<Span, Fault>
        requires { (0 < code) × (code < 12) × (at ≤ length self.now.message.now) }
        ensures value { result ≡ field_at (judged self.now.judge (field_of code)) self.now.message.now at }
        ensures inside { Inside at (length self.now.message.now) result }
    {
        if message_layout::BYTES < code {
            return self.number_at(code, at);
        }
        let content = content_at(self.message, at)?;
        if self.judge && code == message_layout::TEXT {
            let end = content.start + content.len;
            if !wire::text::is_utf8(&self.message[content.start..end]) {
                return Err(Fault::BAD_FIELD);
            }
        }
        Ok(content)
    }

    // A field of the given code, with its words put into the list. The place of a refusal is the field's start (R2.11).
    fn field(&self, code: u8, from: Reached, list: &mut [u32]) -> Result<Reached, Refusal>
        requires { (0 < code) × (code < 12) × Within (length self.now.message.now) (Ok from) }
        ensures list_after { outcome_of result list.new ≡ led (field_outcome from.at (field_at (judged self.now.judge (field_of code)) self.now.message.now from.at)) from.words list.old }
        ensures within { Within (length self.now.message.now) result }
    {
        match self.field_at(code, from.at as usize) {
            Err(fault) => Err(fault.at(from.at)),
            Ok(field) => {
                put_pair(list, from.words as usize, field.start, field.len);
                Ok(Reached {
                    at: (field.start + field.len) as u32,
                    words: from.words + 2,
                })
            }
        }
    }

    // What a code stands for: a field, or a run's count and items.
    #[cycle(item_walk)]
    fn item(&self, code: u8, from: Reached, list: &mut [u32]) -> Result<Reached, Refusal>
        requires { (0 < code) × (code < 67) × (code < 16 → code < 12) × Within (length self.now.message.now) (Ok from) }
        ensures list_after { outcome_of result list.new ≡ led (item_of self.now.judge code self.now.message.now from.at) from.words list.old }
        ensures within { Within (length self.now.message.now) result }
    {
        if code < message_layout::RUN {
            return self.field(code, from, list);
        }
        let mut reached = self.field(message_layout::U16, from, list)?;
        let count = wire::be::u16_at(self.message, from.at as usize);
        let items = usize::from(code - message_layout::RUN);
        for _item in 0..count {
            reached = self.walk(items, reached, list)?;
        }
        Ok(reached)
    }

    // The layout at a position of the table.
    #[cycle(item_walk)]
    fn walk(&self, start: usize, from: Reached, list: &mut [u32]) -> Result<Reached, Refusal>
        requires { (start < 51) × Within (length self.now.message.now) (Ok from) }
        ensures list_after { outcome_of result list.new ≡ led (fields_read (judged_all self.now.judge (layout_at start)) self.now.message.now from.at) from.words list.old }
        ensures within { Within (length self.now.message.now) result }
    {
        let mut position = start;
        let mut reached = from;
        loop {
            let code = message_layout::code_at(self.table, position);
            if code == message_layout::END {
                return Ok(reached);
            }
            reached = self.item(code, reached, list)?;
            position += 1;
        }
    }
}

// What an accepted message gives: the bytes used, and how many words the list has.
#[derive(Clone, Copy)]
pub struct Message {
    pub used: u32,
    pub words: u32,
}

// Where a message's fields start.
const BODY: Reached = Reached {
    at: constants::MESSAGE_HEAD as u32,
    words: 0,
};

// The fields of a whole message, judged and counted, with their words put into the scratch room.
fn check_body(m: &[u8], start: usize, scratch: &mut [u32]) -> Result<Message, Refusal>
    requires { (start < 51) × (5 ≤ length m.now) × (length m.now ≤ 65536) }
    ensures { Checks (message_end m.now (fields_read (layout_at start) m.now 5)) result scratch.old scratch.new }
{
    let table = message_layout::table();
    let reader = Reader {
        message: m,
        table: &table,
        judge: true,
    };
    let reached = reader.walk(start, BODY, scratch)?;
    if (reached.at as usize) < m.len() {
        return Err(Fault::BYTES_LEFT.at(reached.at));
    }
    Ok(Message {
        used: reached.at,
        words: reached.words,
    })
}

// Judges the message at the start of s and counts its words: the whole answer but for the list's room. An accepted message's words
// are left in the scratch room, as far as it goes.
pub fn check(side: u32, s: &[u8], scratch: &mut [u32]) -> Result<Message, Refusal>
    ensures { Checks (message_of side s.now) result scratch.old scratch.new }
{
    if s.len() < constants::MESSAGE_HEAD {
        return Err(Fault::NOT_WHOLE.at(0));
    }
    let length = wire::be::u32_at(s, 1) as usize;
    if length < 4 || constants::MOST_LENGTH < length {
        return Err(Fault::BAD_LENGTH.at(0));
    }
    let end = length + 1;
    if s.len() < end {
        return Err(Fault::NOT_WHOLE.at(0));
    }
    let start = message_layout::start_of(side, s[0]).ok_or(Fault::UNKNOWN_TYPE.at(0))?;
    check_body(&s[..end], start, scratch)
}

// Puts the words of an accepted message into the list, as far as it has room.
pub fn fill(side: u32, s: &[u8], list: &mut [u32])
    requires { Accepted (message_of side s.now) }
    ensures { list.new ≡ sets list.old 0 (message_words (message_of side s.now)) }
{
    let table = message_layout::table();
    let end = wire::be::u32_at(s, 1) as usize + 1;
    if let Some(start) = message_layout::start_of(side, s[0]) {
        let reader = Reader {
            message: &s[..end],
            table: &table,
            judge: false,
        };
        let _ = reader.walk(start, BODY, list);
    }
}

// Reads the message at the start of s into the list.
pub fn read(side: u32, s: &[u8], list: &mut [u32]) -> Result<Message, Refusal>
    ensures { Gives (message_call side s.now (length list.old)) result list.old list.new }
{
    let message = check(side, s, &mut [])?;
    if list.len() < message.words as usize {
        return Err(Fault::LIST_ROOM.at(0));
    }
    fill(side, s, list);
    Ok(message)
}
