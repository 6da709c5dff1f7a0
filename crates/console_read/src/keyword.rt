//! The fixed words: the first word of a command, a book and a queue.
ghost use Rattle.std.specs.Prelude.{◌≡◌, Some};
ghost use Rattle.std.specs.Result.{result_ok};
ghost use Rattle.console_read.specs.Keywords.{keyword_of, keyword_text, keyword_in, book_of, queue_of};

use crate::command::{Book, Command, Queue};
use crate::parsing::Unreadable;
use std::fmt;

/// The first word of a command.
#[derive(Clone, Copy, PartialEq, Eq, Debug)]
pub enum Keyword {
    Open,
    Room,
    File,
    Ride,
    Enter,
    Leave,
    Set,
    Step,
    Run,
    Rest,
    Touching,
    List,
    Certificate,
    Leg,
    Follows,
    Cues,
}

impl TryFrom<&[u8]> for Keyword {
    type Error = Unreadable;

    ghost try_from_gives = { λ word r. result_ok r ≡ keyword_of word.now };

    fn try_from(word: &[u8]) -> Result<Keyword, Unreadable> {
        match word {
            b"open" => Ok(Keyword::Open),
            b"room" => Ok(Keyword::Room),
            b"file" => Ok(Keyword::File),
            b"ride" => Ok(Keyword::Ride),
            b"enter" => Ok(Keyword::Enter),
            b"leave" => Ok(Keyword::Leave),
            b"set" => Ok(Keyword::Set),
            b"step" => Ok(Keyword::Step),
            b"run" => Ok(Keyword::Run),
            b"rest" => Ok(Keyword::Rest),
            b"touching" => Ok(Keyword::Touching),
            b"list" => Ok(Keyword::List),
            b"certificate" => Ok(Keyword::Certificate),
            b"leg" => Ok(Keyword::Leg),
            b"follows" => Ok(Keyword::Follows),
            b"cues" => Ok(Keyword::Cues),
            _ => Err(Unreadable),
        }
    }
}

impl Keyword {
    /// The word.
    pub fn as_str(self) -> &'static str
        ensures { result.now ≡ keyword_text self }
    {
        match self {
            Keyword::Open => "open",
            Keyword::Room => "room",
            Keyword::File => "file",
            Keyword::Ride => "ride",
            Keyword::Enter => "enter",
            Keyword::Leave => "leave",
            Keyword::Set => "set",
            Keyword::Step => "step",
            Keyword::Run => "run",
            Keyword::Rest => "rest",
            Keyword::Touching => "touching",
            Keyword::List => "list",
            Keyword::Certificate => "certificate",
            Keyword::Leg => "leg",
            Keyword::Follows => "follows",
            Keyword::Cues => "cues",
        }
    }
}

impl fmt::Display for Keyword {
    ghost output = { λ key. Some (keyword_text key) };

    fn fmt<W: fmt::Write>(&self, f: &mut fmt::Formatter<W>) -> fmt::Result {
        f.write_str(self.as_str())
    }
}

impl Command {
    /// The first word of a command.
    pub fn keyword(&self) -> Keyword
        ensures { result ≡ keyword_in self.now }
    {
        match self {
            Command::Open { .. } => Keyword::Open,
            Command::Room { .. } => Keyword::Room,
            Command::File(_) => Keyword::File,
            Command::Ride { .. } => Keyword::Ride,
            Command::Enter { .. } => Keyword::Enter,
            Command::Leave { .. } => Keyword::Leave,
            Command::Set { .. } => Keyword::Set,
            Command::Step => Keyword::Step,
            Command::Run => Keyword::Run,
            Command::Rest => Keyword::Rest,
            Command::Touching { .. } => Keyword::Touching,
            Command::List => Keyword::List,
            Command::Certificate { .. } => Keyword::Certificate,
            Command::Leg { .. } => Keyword::Leg,
            Command::Follows { .. } => Keyword::Follows,
            Command::Cues => Keyword::Cues,
        }
    }
}

// No plainer as one text for books and queues: each has its own words, and its definition names them.

impl TryFrom<&[u8]> for Book {
    type Error = Unreadable;

    ghost try_from_gives = { λ word r. result_ok r ≡ book_of word.now };

    fn try_from(word: &[u8]) -> Result<Book, Unreadable> {
        match word {
            b"single" => Ok(Book::Single),
            b"itinerary" => Ok(Book::Itinerary),
            _ => Err(Unreadable),
        }
    }
}

impl TryFrom<&[u8]> for Queue {
    type Error = Unreadable;

    ghost try_from_gives = { λ word r. result_ok r ≡ queue_of word.now };

    fn try_from(word: &[u8]) -> Result<Queue, Unreadable> {
        match word {
            b"heap" => Ok(Queue::Heap),
            b"calendar" => Ok(Queue::Calendar),
            _ => Err(Unreadable),
        }
    }
}
