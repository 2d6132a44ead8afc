// Numbers that have a name: the same names are in the header and, for the definitions, in protocol/specs/Constants.
#![tactic(auto)]

// ---- Largest sizes (R1.4)

// a message's length field
pub const MOST_LENGTH: usize = 65535;

// a message's head: its type byte and its length field
pub const MESSAGE_HEAD: usize = 5;

// the bytes of a message, its type byte among them
pub const MOST_MESSAGE: usize = 65536;

// the bytes of a descriptor
pub const MOST_DESCRIPTOR: usize = 65535;

// the bytes of a value
pub const MOST_VALUE: usize = 65535;

// the blocks of a descriptor that have an index, and the nodes of a plan
pub const MOST_BLOCKS: usize = 1024;

// the items of one count in a block, and the elements of a node
pub const MOST_ITEMS: usize = 512;

// the height of a block or a node
pub const MOST_HEIGHT: u32 = 32;

// the words of a run that crosses to C
pub const MOST_WORDS: usize = 8192;

// the same in bytes
pub const ROOM: usize = 32768;

// ---- Refusal numbers (R1.3)

// the message is not whole yet
pub const NOT_WHOLE: u32 = 1;

// a length field that no message has
pub const BAD_LENGTH: u32 = 2;

// a type byte that the side does not know
pub const UNKNOWN_TYPE: u32 = 3;

// a field goes on past the message's end
pub const FIELD_PAST_END: u32 = 4;

// bytes of the message after its last field
pub const BYTES_LEFT: u32 = 5;

// a field's content
pub const BAD_FIELD: u32 = 6;

// the descriptor ends before the field does
pub const DESCRIPTOR_END: u32 = 10;

// a tag that no block has
pub const UNKNOWN_TAG: u32 = 11;

// a field's content
pub const BAD_CONTENT: u32 = 12;

// a reference that no earlier block has as its index
pub const BAD_REFERENCE: u32 = 13;

// a reference to a block that may not stand there
pub const WRONG_KIND: u32 = 14;

// an id of zero, or one that an earlier block has
pub const BAD_ID: u32 = 15;

// a name that an earlier element has
pub const NAME_TWICE: u32 = 16;

// more than a descriptor may have
pub const DESCRIPTOR_SIZE: u32 = 17;

// no root, or one without values
pub const NO_ROOT: u32 = 18;

// a container ends before a head or an element does
pub const CONTAINER_END: u32 = 20;

// bytes after the last element of a container
pub const VALUE_LEFT: u32 = 21;

// a field of a head
pub const BAD_HEAD: u32 = 22;

// a length that no element here has
pub const BAD_SIZE: u32 = 23;

// the content of a scalar or an enumeration
pub const BAD_SCALAR: u32 = 24;

// an index that the shape does not have
pub const INDEX_OUTSIDE: u32 = 25;

// an index that was given before
pub const INDEX_TWICE: u32 = 26;

// a required element that is not there
pub const REQUIRED: u32 = 27;

// a value of too many bytes
pub const VALUE_SIZE: u32 = 28;

// too little room for the plan
pub const PLAN_ROOM: u32 = 30;

// too little room for the list
pub const LIST_ROOM: u32 = 31;

// too little room for the output
pub const OUTPUT_ROOM: u32 = 32;

// a plan that is not well formed
pub const BAD_PLAN: u32 = 33;

// a supply that no accepted value has
pub const NO_VALUE: u32 = 34;

// a path that leads to no entry
pub const NO_ENTRY: u32 = 35;

// a path that leads to an absent element
pub const ABSENT_ELEMENT: u32 = 36;

// an element that is not one number
pub const NO_NUMBER: u32 = 37;

// ---- Sides (R2.4)

// of a message that the client sends
pub const CLIENT: u32 = 0;

// of one that the server sends
pub const SERVER: u32 = 1;

// ---- Cardinalities (R2.10)

// none
pub const CARDINALITY_NONE: u32 = 0x6e;

// at most one
pub const CARDINALITY_AT_MOST_ONE: u32 = 0x6f;

// one
pub const CARDINALITY_ONE: u32 = 0x41;

// many
pub const CARDINALITY_MANY: u32 = 0x6d;

// at least one
pub const CARDINALITY_AT_LEAST_ONE: u32 = 0x4d;

// ---- Tags of blocks (R3.2)

pub const TAG_SET: u32 = 0;

pub const TAG_OUTPUT_SHAPE: u32 = 1;

pub const TAG_SCALAR: u32 = 3;

pub const TAG_TUPLE: u32 = 4;

pub const TAG_NAMED_TUPLE: u32 = 5;

pub const TAG_ARRAY: u32 = 6;

pub const TAG_ENUMERATION: u32 = 7;

pub const TAG_INPUT_SHAPE: u32 = 8;

pub const TAG_RANGE: u32 = 9;

pub const TAG_OBJECT_TYPE: u32 = 10;

pub const TAG_COMPOUND_TYPE: u32 = 11;

pub const TAG_RECORD: u32 = 13;

pub const TAG_ANNOTATION: u32 = 127;

// the bound of an array that has none, -1 (R3.6)
pub const UNBOUNDED: u32 = 0xffffffff;

// ---- Formats of scalars (R3.15)

pub const FORMAT_UUID: u32 = 0;

pub const FORMAT_STR: u32 = 1;

pub const FORMAT_BYTES: u32 = 2;

pub const FORMAT_INT16: u32 = 3;

pub const FORMAT_INT32: u32 = 4;

pub const FORMAT_INT64: u32 = 5;

pub const FORMAT_FLOAT32: u32 = 6;

pub const FORMAT_FLOAT64: u32 = 7;

pub const FORMAT_DECIMAL: u32 = 8;

pub const FORMAT_BOOL: u32 = 9;

pub const FORMAT_DATETIME: u32 = 10;

pub const FORMAT_LOCAL_DATETIME: u32 = 11;

pub const FORMAT_LOCAL_DATE: u32 = 12;

pub const FORMAT_LOCAL_TIME: u32 = 13;

pub const FORMAT_DURATION: u32 = 14;

pub const FORMAT_JSON: u32 = 15;

pub const FORMAT_BIGINT: u32 = 16;

pub const FORMAT_RELATIVE_DURATION: u32 = 17;

pub const FORMAT_DATE_DURATION: u32 = 18;

pub const FORMAT_MEMORY: u32 = 19;

// how many there are
pub const FORMATS: u32 = 20;

// the last microsecond of a day (R5.15)
pub const MOST_LOCAL_TIME: u64 = 86399999999;

// ---- Kinds of nodes (R4.2)

pub const KIND_LEAF: u32 = 1;

pub const KIND_SET_OR_ARRAY: u32 = 2;

pub const KIND_SET_OF_ARRAYS: u32 = 3;

pub const KIND_TUPLE: u32 = 4;

pub const KIND_OUTPUT_OBJECT: u32 = 5;

pub const KIND_INPUT_OBJECT: u32 = 6;

pub const KIND_RANGE: u32 = 7;

pub const KIND_ENUMERATION: u32 = 8;

// ---- Lists (R6.1, R6.5)

// the words of an entry
pub const ENTRY_WORDS: usize = 5;

// the length word of an element that is absent: -1
pub const ABSENT: u32 = 4294967295;
