// The enums and structs that the code and the definitions share, and the methods that make an intake's states and answers.
#![tactic(auto)]

pub mod fault;

ghost use Rattle.std.specs.Prelude.{◌≡◌};

// The content of a message's field: where it starts, and how many bytes it has.
#[derive(Clone, Copy)]
pub struct Span {
    pub start: usize,
    pub len: usize,
}

// A container's head: how many elements follow, the index of the first and where it stands.
#[derive(Clone, Copy)]
pub struct Opening {
    pub count: usize,
    pub first: usize,
    pub at: usize,
}

// An element's head: its index, where its bytes start and how many they are; or, where it is absent, its index and the place past its head.
#[derive(Clone, Copy)]
pub enum Head {
    Present {
        index: usize,
        start: usize,
        size: usize,
    },
    Absent {
        index: usize,
        start: usize,
    },
}

// What a C call answers: a refusal's number and place, or two results.
#[repr(C)]
#[derive(Clone, Copy)]
pub struct Answer {
    pub number: u32,
    pub place: u32,
    pub first: u32,
    pub second: u32,
}

impl Answer {
    // No refusal, with two results (R9.8).
    pub fn success(first: u32, second: u32) -> Answer
        ensures { result ≡ record { number = 0; place = 0; first = first; second = second } }
    {
        Answer {
            number: 0,
            place: 0,
            first,
            second,
        }
    }
}

// What the C call for the number of an element answers: a refusal's number and place, or its format and its bits.
#[repr(C)]
#[derive(Clone, Copy)]
pub struct Number {
    pub number: u32,
    pub place: u32,
    pub format: u32,
    pub bits: u64,
}

// What the bytes at hand of an intake come to, before a message is judged and where nothing is refused (R10.3): so many are lacking, or a
// message of so many bytes is whole.
#[derive(Clone, Copy)]
pub enum AtHand {
    Lacking(usize),
    Whole(usize),
}

// The state of an intake (R10.1): the length of its room, the side whose messages it joins, how many bytes wait in the room, and number and
// place of the refusal that ended it, or 0.
#[repr(C)]
#[derive(Clone, Copy)]
pub struct Intake {
    pub room: u64,
    pub side: u32,
    pub held: u32,
    pub number: u32,
    pub place: u32,
}

impl Intake {
    // The state in which nothing is held and nothing refused (R10.2).
    pub fn start(side: u32, room: usize) -> Intake
        ensures { result ≡ record { room = room; side = side; held = 0; number = 0; place = 0 } }
    {
        Intake {
            room: room as u64,
            side,
            held: 0,
            number: 0,
            place: 0,
        }
    }

    // The same side and room, with so many bytes held and nothing refused.
    pub fn holding(self, held: u32) -> Intake
        ensures { result ≡ record { room = self.room; side = self.side; held = held; number = 0; place = 0 } }
    {
        Intake {
            room: self.room,
            side: self.side,
            held,
            number: 0,
            place: 0,
        }
    }

    // Ended by a refusal (R10.5).
    pub fn ended(self, number: u32, place: u32) -> Intake
        ensures { result ≡ record { room = self.room; side = self.side; held = 0; number = number; place = place } }
    {
        Intake {
            room: self.room,
            side: self.side,
            held: 0,
            number,
            place,
        }
    }

    // The state after a reset (R10.2): what was held and what was refused is dropped.
    pub fn reset(self) -> Intake
        ensures { result ≡ record { room = self.room; side = self.side; held = 0; number = 0; place = 0 } }
    {
        self.holding(0)
    }

    // Bytes taken answered with this state: with a message of this size, or with none (R10.4).
    pub fn taking(self, taken: u32, size: u32, lacks: u32) -> Delivery
        ensures { result ≡ record { intake = self; number = 0; place = 0; taken = taken; size = size; lacks = lacks } }
    {
        Delivery {
            intake: self,
            number: 0,
            place: 0,
            taken,
            size,
            lacks,
        }
    }

    // A refusal answered with this state: nothing is taken, given or lacking (R10.5).
    pub fn refusing(self, number: u32, place: u32) -> Delivery
        ensures { result ≡ record { intake = self; number = number; place = place; taken = 0; size = 0; lacks = 0 } }
    {
        let intake = self;
        Delivery {
            intake,
            number,
            place,
            taken: 0,
            size: 0,
            lacks: 0,
        }
    }
}

// What an intake answers to a delivery (R10.4, R10.5): its next state, a refusal's number and place, how many bytes were taken, the size of the
// message that is whole now, or 0, and how many bytes are lacking. The header calls the size `length`.
#[repr(C)]
#[derive(Clone, Copy)]
pub struct Delivery {
    pub intake: Intake,
    pub number: u32,
    pub place: u32,
    pub taken: u32,
    pub size: u32,
    pub lacks: u32,
}
