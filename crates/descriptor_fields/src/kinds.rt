// The kinds of fields, and the fields of each block: see Layouts. Numbers that rise with their class, so that a class is one test.
#![tactic(auto, using(std::proofs::lemmas::Bool::Decides::nat_tests), unfolding(crate::specs::Layouts::padded, crate::specs::Layouts::layout, crate::specs::Layouts::known_tag, crate::specs::Layouts::valued, crate::specs::Layouts::object_type, protocol::specs::Numbers::pick))]

ghost use Rattle.std.specs.Prelude.{◌≡◌};
ghost use Rattle.descriptor_fields.specs.Layouts.{layout, encoded, typed_runs, simple_runs, known_tag, valued, object_type};

pub const END: u8 = 0;

pub const ID: u8 = 1;

pub const TEXT: u8 = 2;

pub const NAME: u8 = 3;

pub const BOOL: u8 = 4;

pub const FREE: u8 = 5;

pub const OPERATION: u8 = 6;

pub const CARDINALITY: u8 = 7;

pub const SHAPE_FLAGS: u8 = 8;

pub const INPUT_FLAGS: u8 = 9;

pub const BOUND: u8 = 10;

pub const DIMENSIONS: u8 = 11;

pub const ANCESTORS: u8 = 12;

pub const COUNT: u8 = 13;

pub const ANCESTOR: u8 = 14;

pub const ANY: u8 = 15;

pub const OBJECT: u8 = 16;

pub const ELEMENT: u8 = 17;

pub const SET_ELEMENT: u8 = 18;

pub const ARRAY_ELEMENT: u8 = 19;

pub const RANGE_ELEMENT: u8 = 20;

// The kinds of a block's fields, each run of them up to the first END: the first fields, those of each item that they count, and the
// same once more.
#[derive(Clone, Copy)]
pub struct BlockFields {
    pub head: [u8; 6],
    pub first: [u8; 6],
    pub more: [u8; 6],
    pub last: [u8; 6],
}

// No field.
const NONE: [u8; 6] = [END, END, END, END, END, END];

// A count, and no other field.
const ONE_COUNT: [u8; 6] = [COUNT, END, END, END, END, END];

// A block with a name and ancestors, and what comes after them.
fn typed(more: [u8; 6], last: [u8; 6]) -> BlockFields
    ensures { result ≡ typed_runs more last }
{
    BlockFields {
        head: [ID, TEXT, BOOL, ANCESTORS, END, END],
        first: [ANCESTOR, END, END, END, END, END],
        more,
        last,
    }
}

// Fields, and a run of items.
fn simple(head: [u8; 6], first: [u8; 6]) -> BlockFields
    ensures { result ≡ simple_runs head first }
{
    BlockFields {
        head,
        first,
        more: NONE,
        last: NONE,
    }
}

// The fields of a block, by its tag: the table `layout` of Layouts, arm by arm.
pub fn layout_of(tag: u32) -> BlockFields
    ensures { result ≡ encoded (layout tag) }
{
    match tag {
        constants::TAG_SET => simple([ID, SET_ELEMENT, END, END, END, END], NONE),
        constants::TAG_OUTPUT_SHAPE => simple(
            [ID, FREE, OBJECT, COUNT, END, END],
            [SHAPE_FLAGS, CARDINALITY, TEXT, ELEMENT, OBJECT, END],
        ),
        constants::TAG_TUPLE => typed(ONE_COUNT, [ELEMENT, END, END, END, END, END]),
        constants::TAG_NAMED_TUPLE => typed(ONE_COUNT, [NAME, ELEMENT, END, END, END, END]),
        constants::TAG_ARRAY => typed([ARRAY_ELEMENT, DIMENSIONS, BOUND, END, END, END], NONE),
        constants::TAG_ENUMERATION => typed(ONE_COUNT, [TEXT, END, END, END, END, END]),
        constants::TAG_INPUT_SHAPE => simple(
            [ID, COUNT, END, END, END, END],
            [INPUT_FLAGS, CARDINALITY, NAME, ELEMENT, END, END],
        ),
        constants::TAG_RANGE => typed([RANGE_ELEMENT, END, END, END, END, END], NONE),
        constants::TAG_OBJECT_TYPE => simple([ID, TEXT, BOOL, END, END, END], NONE),
        constants::TAG_COMPOUND_TYPE => simple(
            [ID, TEXT, BOOL, OPERATION, COUNT, END],
            [OBJECT, END, END, END, END, END],
        ),
        constants::TAG_RECORD => simple(
            [ID, COUNT, END, END, END, END],
            [TEXT, ANY, END, END, END, END],
        ),
        constants::TAG_ANNOTATION => simple([ANY, TEXT, TEXT, END, END, END], NONE),
        _ => typed(NONE, NONE),
    }
}

// Whether a tag is known (R3.2).
pub fn is_known(tag: u32) -> bool
    ensures { result ≡ known_tag tag }
{
    matches!(
        tag,
        constants::TAG_SET..=constants::TAG_OUTPUT_SHAPE
            | constants::TAG_SCALAR..=constants::TAG_COMPOUND_TYPE
            | constants::TAG_RECORD
            | constants::TAG_ANNOTATION
    )
}

// Whether a block has values (R3.2).
pub fn has_values(tag: u32) -> bool
    ensures { result ≡ valued tag }
{
    !matches!(
        tag,
        constants::TAG_OBJECT_TYPE | constants::TAG_COMPOUND_TYPE | constants::TAG_RECORD
    )
}

// Whether a block is an object type or a compound type.
pub fn is_object(tag: u32) -> bool
    ensures { result ≡ object_type tag }
{
    matches!(
        tag,
        constants::TAG_OBJECT_TYPE | constants::TAG_COMPOUND_TYPE
    )
}
