// Why a call refuses (R1.3), and where.
ghost use Rattle.std.specs.Prelude.{◌≡◌, ℕ};

use crate::Answer;
use std::marker::Model;

// The number of a refusal. Only the numbers that have a name here are made, and a clause sees the number.
#[derive(Clone, Copy, PartialEq, Eq)]
pub struct Fault {
    number: u32,
}

impl Model for Fault {
    ghost Value = { ℕ };

    ghost view = { λ f. f.number };

    ghost inverse = { λ n. record { number = n } };
}

// Each number of the table, under its name there.
impl Fault {
    pub const NOT_WHOLE: Fault = Fault {
        number: constants::NOT_WHOLE,
    };

    pub const BAD_LENGTH: Fault = Fault {
        number: constants::BAD_LENGTH,
    };

    pub const UNKNOWN_TYPE: Fault = Fault {
        number: constants::UNKNOWN_TYPE,
    };

    pub const FIELD_PAST_END: Fault = Fault {
        number: constants::FIELD_PAST_END,
    };

    pub const BYTES_LEFT: Fault = Fault {
        number: constants::BYTES_LEFT,
    };

    pub const BAD_FIELD: Fault = Fault {
        number: constants::BAD_FIELD,
    };

    pub const DESCRIPTOR_END: Fault = Fault {
        number: constants::DESCRIPTOR_END,
    };

    pub const UNKNOWN_TAG: Fault = Fault {
        number: constants::UNKNOWN_TAG,
    };

    pub const BAD_CONTENT: Fault = Fault {
        number: constants::BAD_CONTENT,
    };

    pub const BAD_REFERENCE: Fault = Fault {
        number: constants::BAD_REFERENCE,
    };

    pub const WRONG_KIND: Fault = Fault {
        number: constants::WRONG_KIND,
    };

    pub const BAD_ID: Fault = Fault {
        number: constants::BAD_ID,
    };

    pub const NAME_TWICE: Fault = Fault {
        number: constants::NAME_TWICE,
    };

    pub const DESCRIPTOR_SIZE: Fault = Fault {
        number: constants::DESCRIPTOR_SIZE,
    };

    pub const NO_ROOT: Fault = Fault {
        number: constants::NO_ROOT,
    };

    pub const CONTAINER_END: Fault = Fault {
        number: constants::CONTAINER_END,
    };

    pub const VALUE_LEFT: Fault = Fault {
        number: constants::VALUE_LEFT,
    };

    pub const BAD_HEAD: Fault = Fault {
        number: constants::BAD_HEAD,
    };

    pub const BAD_SIZE: Fault = Fault {
        number: constants::BAD_SIZE,
    };

    pub const BAD_SCALAR: Fault = Fault {
        number: constants::BAD_SCALAR,
    };

    pub const INDEX_OUTSIDE: Fault = Fault {
        number: constants::INDEX_OUTSIDE,
    };

    pub const INDEX_TWICE: Fault = Fault {
        number: constants::INDEX_TWICE,
    };

    pub const REQUIRED: Fault = Fault {
        number: constants::REQUIRED,
    };

    pub const VALUE_SIZE: Fault = Fault {
        number: constants::VALUE_SIZE,
    };

    pub const PLAN_ROOM: Fault = Fault {
        number: constants::PLAN_ROOM,
    };

    pub const LIST_ROOM: Fault = Fault {
        number: constants::LIST_ROOM,
    };

    pub const OUTPUT_ROOM: Fault = Fault {
        number: constants::OUTPUT_ROOM,
    };

    pub const BAD_PLAN: Fault = Fault {
        number: constants::BAD_PLAN,
    };

    pub const NO_VALUE: Fault = Fault {
        number: constants::NO_VALUE,
    };

    pub const NO_ENTRY: Fault = Fault {
        number: constants::NO_ENTRY,
    };

    pub const ABSENT_ELEMENT: Fault = Fault {
        number: constants::ABSENT_ELEMENT,
    };

    pub const NO_NUMBER: Fault = Fault {
        number: constants::NO_NUMBER,
    };

    // The number as C knows it.
    pub fn number(self) -> u32
        ensures { result ≡ self }
    {
        self.number
    }

    // The refusal with this number at a place.
    pub fn at(self, place: u32) -> Refusal
        ensures { result ≡ record { fault = self; place = place } }
    {
        Refusal { fault: self, place }
    }
}

// A refusal: its number and place.
#[derive(Clone, Copy, PartialEq, Eq)]
pub struct Refusal {
    pub fault: Fault,
    pub place: u32,
}

// A C call answers a refusal with its number and place, and no results (R9.8).
impl From<Refusal> for Answer {
    ghost from_gives = { λ r a. a ≡ record { number = r.fault; place = r.place; first = 0; second = 0 } };

    fn from(refusal: Refusal) -> Answer {
        Answer {
            number: refusal.fault.number(),
            place: refusal.place,
            first: 0,
            second: 0,
        }
    }
}
