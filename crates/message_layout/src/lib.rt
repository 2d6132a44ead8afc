// The ten messages' layouts as tables of codes, for the reader and the writer to go by.
#![tactic(auto)]

ghost use Rattle.std.specs.Prelude.{◌≡◌, ◌+◌, ◌≤◌, ◌<◌, length, take, drop};
ghost use Rattle.message_layout.specs.Tables.{codes, width_of, values_of, WidthOf, CodeOf, server_start, client_start, start_of};
ghost use Rattle.protocol.specs.Messages.{permits};
ghost use Rattle.protocol.specs.Numbers.{be};

// Codes: the end of a layout, a field, or RUN and the position of the layout of a run's items.
pub const END: u8 = 0;

pub const TEXT: u8 = 1;

pub const BYTES: u8 = 2;

const ERROR_SEVERITY: u8 = 3;

const LOG_SEVERITY: u8 = 4;

const STATE: u8 = 5;

const CARDINALITY: u8 = 6;

pub const U16: u8 = 7;

const U32: u8 = 8;

const U64: u8 = 9;

const UUID: u8 = 10;

const ONE: u8 = 11;

pub const RUN: u8 = 16;

// Where a layout starts in CODES.
const E: usize = 0;

const L: usize = 5;

const Z: usize = 10;

const C: usize = 13;

const T: usize = 19;

const STATE_DESCRIPTION: usize = 27;

const D: usize = 30;

const S: usize = 33;

const CLIENT_S: usize = 36;

const V: usize = 37;

const EXTENSION: u8 = 42;

const ATTRIBUTE: u8 = 45;

const ANNOTATION: u8 = 48;

const CODES: [u8; 51] = [
    // E, L
    ERROR_SEVERITY,
    U32,
    TEXT,
    RUN + ATTRIBUTE,
    END,
    LOG_SEVERITY,
    U32,
    TEXT,
    RUN + ANNOTATION,
    END,
    // Z, C
    RUN + ANNOTATION,
    STATE,
    END,
    RUN + ANNOTATION,
    U64,
    TEXT,
    UUID,
    BYTES,
    END,
    // T
    RUN + ANNOTATION,
    U64,
    CARDINALITY,
    UUID,
    BYTES,
    UUID,
    BYTES,
    END,
    // s, D, S
    UUID,
    BYTES,
    END,
    ONE,
    BYTES,
    END,
    BYTES,
    BYTES,
    END,
    // the client's S, V
    END,
    U16,
    U16,
    RUN + ANNOTATION,
    RUN + EXTENSION,
    END,
    // items: extension, attribute, annotation
    TEXT,
    RUN + ANNOTATION,
    END,
    U16,
    BYTES,
    END,
    TEXT,
    TEXT,
    END,
];

// Width of a code's number, and where its permitted values start in VALUES; they end where the next code's start.
const WIDTHS: [u8; 12] = [0, 0, 0, 1, 1, 1, 1, 2, 4, 8, 16, 2];

const FIRSTS: [u8; 13] = [0, 0, 0, 0, 3, 7, 10, 15, 15, 15, 15, 15, 16];

const VALUES: [u8; 16] = [
    0x78,
    0xc8,
    0xff,
    0x14,
    0x28,
    0x3c,
    0x50,
    0x49,
    0x54,
    0x45,
    constants::CARDINALITY_NONE as u8,
    constants::CARDINALITY_AT_MOST_ONE as u8,
    constants::CARDINALITY_ONE as u8,
    constants::CARDINALITY_MANY as u8,
    constants::CARDINALITY_AT_LEAST_ONE as u8,
    1,
];

// The width of a code's number; text and bytes have none.
pub fn width_of(code: u8) -> usize
    requires { code < 12 }
    ensures { WidthOf code result }
{
    usize::from(WIDTHS[usize::from(code)])
}

// Whether the number at `at` is one that its code permits.
pub fn admits(s: &[u8], at: usize, code: u8) -> bool
    requires { (2 < code) × (code < 12) × (at + width_of code ≤ length s.now) }
    ensures { result ≡ permits (values_of code) (be (take (width_of code) (drop at s.now))) }
{
    let row = usize::from(code);
    let from = usize::from(FIRSTS[row]);
    let to = usize::from(FIRSTS[row + 1]);
    if from == to {
        return true;
    }
    let number = wire::be::uint_at(s, at, width_of(code));
    VALUES[from..to]
        .iter()
        .any(|&value| number == u64::from(value))
}

// The table of codes. A constant table is built anew wherever it is named, so a walk is lent one that was built once.
pub fn table() -> [u8; 51]
    ensures { result ≡ codes }
{
    CODES
}

// The code at a position of the table.
pub fn code_at(table: &[u8], p: usize) -> u8
    requires { (table.now ≡ codes) × (p < 51) }
    ensures { CodeOf p result }
{
    table[p]
}

#[tactic(auto, unfolding(crate::specs::Tables::server_start, protocol::specs::Numbers::pick))]
fn server_start(ty: u8) -> Option<usize>
    ensures { result ≡ server_start ty }
{
    match ty {
        0x45 => Some(E),
        0x4c => Some(L),
        0x5a => Some(Z),
        0x43 => Some(C),
        0x54 => Some(T),
        0x73 => Some(STATE_DESCRIPTION),
        0x44 => Some(D),
        0x53 => Some(S),
        _ => None,
    }
}

#[tactic(auto, unfolding(crate::specs::Tables::client_start, protocol::specs::Numbers::pick))]
fn client_start(ty: u8) -> Option<usize>
    ensures { result ≡ client_start ty }
{
    match ty {
        0x53 => Some(CLIENT_S),
        0x56 => Some(V),
        _ => None,
    }
}

// The position of a type byte's layout, where the side knows it: proofs/Starts says that the layout there is its own.
#[tactic(auto, unfolding(crate::specs::Tables::start_of, protocol::specs::Numbers::pick))]
pub fn start_of(side: u32, ty: u8) -> Option<usize>
    ensures { result ≡ start_of side ty }
{
    match side {
        constants::SERVER => server_start(ty),
        constants::CLIENT => client_start(ty),
        _ => None,
    }
}
