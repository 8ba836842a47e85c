// The types that the definitions of specs/ share with the code above.
#![tactic(auto)]

ghost use Rattle.std.specs.Prelude.{◌≡◌};
ghost use Rattle.layout.specs.Refusals.{number};

// Document 01's longest image, and its longest table.
pub const IMAGE_BYTES: usize = 1284;

pub const TABLE_WORDS: usize = 16964;

// A right side: the number of its symbols, or its verdict.
#[derive(Clone, Copy)]
pub enum RightSide {
    Put(usize),
    Close(u64),
}

// Why a call is refused, by document 01's numbers. A list of calls that is none is refused by a number of its own, 30.
#[derive(Clone, Copy, Debug, PartialEq, Eq)]
pub enum Refusal {
    // Of the reader: a text too long, an area too short, a run that is no token, a token in the wrong place, a limit exceeded, an
    // event named twice.
    LongText = 1,
    ShortArea = 2,
    NoToken = 3,
    Misplaced = 4,
    TooMany = 5,
    Repeated = 6,
    // Of the table: an image that breaks the layout or a range, a table area too short, a table that is not the image's.
    BadImage = 7,
    ShortTable = 8,
    OtherTable = 9,
    // Of the monitor: an area of another length, head and areas not as described, a number that is no event, too much fuel, a
    // verdict that stands, no room for the event, too many events or too few answer bytes.
    AreaLength = 10,
    NotAsDescribed = 11,
    NoEvent = 12,
    TooMuchFuel = 13,
    VerdictStands = 14,
    NoRoom = 15,
    BatchLength = 16,
    NoCalls = 30,
}

impl Refusal {
    // Document 01's number of the refusal. It is no `From`: `number` says what is asked for, and `into` would not.
    pub fn number(self) -> u32
        ensures { result ≡ number self }
    {
        self as u32
    }
}
