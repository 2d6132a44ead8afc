// Writing a message: one interpreter over the layouts' table. A first pass judges and measures, a second puts the bytes out.
#![tactic(auto)]

ghost use Rattle.std.specs.Prelude.{◌≡◌, true, false, ◌+◌, ◌^◌, ◌≤◌, ◌<◌, length, drop, Some};
ghost use Rattle.message_layout.specs.Tables.{codes, field_of, layout_at};
ghost use Rattle.message_layout.specs.Judged.{judged, judged_all};
ghost use Rattle.message_write.specs.Answers.{Puts};
ghost use Rattle.message_write.specs.Emitting.{cap, Framed, put_at, stand_of, Bounded, item_from};
ghost use Rattle.protocol.specs.Messages.{fitting, field_bytes, next_field, fields_written, message_written};

use forms::fault::Fault;

// One past the largest message: where the running length stops growing.
const LIMIT: usize = constants::MOST_MESSAGE + 1;

// Where a writing stands: the next word of the list, and the next byte of the output.
#[derive(Clone, Copy)]
struct Emitted {
    word: usize,
    at: usize,
}

// Whether the bytes are a number of the given code.
fn number_fits(part: &[u8], code: u8, judge: bool) -> bool
    requires { (2 < code) × (code < 12) }
    ensures { result ≡ fitting (judged judge (field_of code)) part.now }
{
    part.len() == message_layout::width_of(code)
        && (!judge || message_layout::admits(part, 0, code))
}

// Whether the bytes are permitted as the content of a field of the given code, or have its width where content is taken as it is.
fn content_fits(part: &[u8], code: u8, judge: bool) -> bool
    requires { (0 < code) × (code < 12) }
    ensures { result ≡ fitting (judged judge (field_of code)) part.now }
{
    if message_layout::BYTES < code {
        return number_fits(part, code, judge);
    }
    if code == message_layout::BYTES || !judge {
        return true;
    }
    wire::text::is_utf8(part)
}

// A field of the given code with its content, put into out at `at`, as far as it has room.
fn frame(part: &[u8], code: u8, out: &mut [u8], at: usize) -> usize
    requires { (0 < code) × (code < 12) × (length part.now < 2 ^ 32) × (at ≤ 65537) }
    ensures { Framed (field_bytes (field_of code) part.now) at result out.old out.new }
{
    if message_layout::BYTES < code {
        wire::copy::put_bytes(part, out, at);
        return LIMIT.min(at + part.len());
    }
    let mut head = [0u8; 4];
    wire::be::put_u32(&mut head, 0, part.len() as u32);
    wire::copy::put_bytes(&head, out, at);
    wire::copy::put_bytes(part, out, at + 4);
    LIMIT.min(at + 4 + part.len())
}

// The bytes and the pairs of a message's fields, the table of codes to go by, and whether content is judged or taken as it is.
#[derive(Clone, Copy)]
struct Writer<'a> {
    src: &'a [u8],
    list: &'a [u32],
    table: &'a [u8],
    judge: bool,
    ghost coded: { table.now ≡ codes },
}

impl<'a> Writer<'a> {
    // A field of the given code, from the next pair of the list.
    fn field(&self, code: u8, from: Emitted, out: &mut [u8]) -> Option<Emitted>
        requires { (0 < code) × (code < 12) × Bounded (length self.now.list.now) (Some from) }
        ensures out_after { stand_of result self.now.list.now out.new
            ≡ put_at (next_field (judged self.now.judge (field_of code)) self.now.src.now (drop from.word self.now.list.now)) from.at out.old }
        ensures bounded { Bounded (length self.now.list.now) result }
    {
        if self.list.len() < from.word + 2 {
            return None;
        }
        let start = self.list[from.word] as usize;
        let end = start + self.list[from.word + 1] as usize;
        if self.src.len() < end {
            return None;
        }
        let part = &self.src[start..end];
        if !content_fits(part, code, self.judge) {
            return None;
        }
        let at = frame(part, code, out, from.at);
        Some(Emitted {
            word: from.word + 2,
            at,
        })
    }

    // What a code stands for: a field, or a run's count and items.
    #[cycle(item_walk)]
    fn item(&self, code: u8, from: Emitted, out: &mut [u8]) -> Option<Emitted>
        requires { (0 < code) × (code < 67) × (code < 16 → code < 12) × Bounded (length self.now.list.now) (Some from) × (length out.old ≤ 65536) }
        ensures out_after { stand_of result self.now.list.now out.new
            ≡ put_at (item_from self.now.judge code self.now.src.now (drop from.word self.now.list.now)) from.at out.old }
        ensures bounded { Bounded (length self.now.list.now) result }
    {
        if code < message_layout::RUN {
            return self.field(code, from, out);
        }
        let mut emitted = self.field(message_layout::U16, from, out)?;
        let count = wire::be::u16_at(self.src, self.list[from.word] as usize);
        let items = usize::from(code - message_layout::RUN);
        for _item in 0..count {
            emitted = self.walk(items, emitted, out)?;
        }
        Some(emitted)
    }

    // The layout at a position of the table.
    #[cycle(item_walk)]
    fn walk(&self, start: usize, from: Emitted, out: &mut [u8]) -> Option<Emitted>
        requires { (start < 51) × Bounded (length self.now.list.now) (Some from) × (length out.old ≤ 65536) }
        ensures out_after { stand_of result self.now.list.now out.new
            ≡ put_at (fields_written (judged_all self.now.judge (layout_at start)) self.now.src.now (drop from.word self.now.list.now)) from.at out.old }
        ensures bounded { Bounded (length self.now.list.now) result }
    {
        let mut position = start;
        let mut emitted = from;
        loop {
            let code = message_layout::code_at(self.table, position);
            if code == message_layout::END {
                return Some(emitted);
            }
            emitted = self.item(code, emitted, out)?;
            position += 1;
        }
    }
}

// Where a message's fields start.
const BODY: Emitted = Emitted {
    word: 0,
    at: constants::MESSAGE_HEAD,
};

// Writes the message of a type byte whose fields hold the bytes of src that the list's pairs name, and gives its length.
pub fn write(side: u32, ty: u8, list: &[u32], src: &[u8], out: &mut [u8]) -> Result<u32, Fault>
    ensures { Puts (message_written side ty list.now src.now (length out.old)) result out.old out.new }
{
    let start = message_layout::start_of(side, ty).ok_or(Fault::UNKNOWN_TYPE)?;
    let table = message_layout::table();
    let judging = Writer {
        src,
        list,
        table: &table,
        judge: true,
    };
    let whole = judging.walk(start, BODY, &mut []).ok_or(Fault::BAD_FIELD)?;
    if whole.word < list.len() {
        return Err(Fault::BAD_FIELD);
    }
    let len = whole.at;
    if constants::MOST_MESSAGE < len {
        return Err(Fault::BAD_LENGTH);
    }
    if out.len() < len {
        return Err(Fault::OUTPUT_ROOM);
    }
    out[0] = ty;
    wire::be::put_u32(out, 1, (len - 1) as u32);
    let writer = Writer {
        src,
        list,
        table: &table,
        judge: false,
    };
    let _ = writer.walk(start, BODY, &mut out[..len]);
    Ok(len as u32)
}
