//! The commands of the console, with their arguments.
ghost use Rattle.std.specs.Prelude.{◌≡◌};
ghost use Rattle.console_read.specs.Shapes.{legs_given};

use console_text::TimeText;
use fleet::Xyz;

/// The book that a console opens over.
#[derive(Clone, Copy, PartialEq, Eq, Debug)]
pub enum Book {
    Single,
    Itinerary,
}

/// The queue that a console opens over.
#[derive(Clone, Copy, PartialEq, Eq, Debug)]
pub enum Queue {
    Heap,
    Calendar,
}

/// A leg as it is written: its start tick, and its speed on each axis.
#[derive(Clone, Copy, PartialEq, Eq, Default, Debug)]
pub struct LegText {
    pub start: u16,
    pub speed: Xyz<i16>,
}

/// As many legs may be written in a plan.
pub const MOST_LEGS: usize = 20;

/// A plan as it is written: the first `count` of the legs are given.
// The legs stand in a table with their count, since a list of the kit's is not `Copy`.
#[derive(Clone, Copy, PartialEq, Eq, Debug)]
pub struct Filing {
    pub craft: u8,
    pub at: Xyz<i32>,
    pub legs: [LegText; MOST_LEGS],
    pub count: u8,
    pub end: u16,
}

impl Filing {
    /// The legs that are given.
    pub fn legs(&self) -> &[LegText]
        ensures { result.now ≡ legs_given self.now }
    {
        &self.legs[..MOST_LEGS.min(usize::from(self.count))]
    }
}

/// A command with its arguments.
#[derive(Clone, Copy, PartialEq, Eq, Debug)]
pub enum Command {
    Open {
        book: Book,
        layers: u8,
        queue: Queue,
    },
    Room {
        slip: u32,
        page: u32,
        list: u32,
    },
    File(Filing),
    Ride {
        craft: u8,
        level: u8,
        carrier: Option<u8>,
    },
    Enter {
        craft: u8,
        half: Xyz<u16>,
    },
    Leave {
        craft: u8,
    },
    Set {
        time: TimeText,
    },
    Step,
    Run,
    Rest,
    Touching {
        a: u8,
        b: u8,
    },
    List,
    Certificate {
        slot: u16,
    },
    Leg {
        craft: u8,
        time: TimeText,
    },
    Follows {
        d: u8,
        c: u8,
    },
    Cues,
}
