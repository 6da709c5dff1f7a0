//! What a line is read as.
ghost use Rattle.std.specs.Prelude.{◌≡◌, ℕ, List, ◌∷◌, Some, codes};
ghost use Rattle.console_read.specs.Shapes.{left};
ghost use Rattle.console_read.specs.Parsing.{alone_of, command_of, parsed_of};

use crate::command::Command;
use crate::keyword::Keyword;
use crate::legs::{file, may_file};
use crate::shapes;
use crate::shapes::ended;
use console_text::Words;
use console_text::words::before_comment;
use std::error::Error;
use std::fmt;

/// A line, or a word of it, cannot be read.
#[derive(Clone, Copy, PartialEq, Eq, Debug)]
pub struct Unreadable;

impl fmt::Display for Unreadable {
    ghost output = { λ _. Some (codes "cannot read") };

    fn fmt<W: fmt::Write>(&self, f: &mut fmt::Formatter<W>) -> fmt::Result {
        f.write_str("cannot read")
    }
}

impl Error for Unreadable {}

/// A command of one word.
fn alone(rest: Words<'_>, command: Command) -> Option<Command>
    ensures { (first : List ℕ) → result ≡ alone_of (first ∷ left rest.entry) command }
{
    ended(rest)?;
    Some(command)
}

/// The command of a keyword, from the words after it.
fn command(key: Keyword, rest: Words<'_>) -> Option<Command>
    ensures { (first : List ℕ) → result ≡ command_of key (first ∷ left rest.entry) }
{
    match key {
        Keyword::Open => shapes::open(rest),
        Keyword::Room => shapes::room(rest),
        Keyword::File => file(rest),
        Keyword::Ride => shapes::ride(rest),
        Keyword::Enter => shapes::enter(rest),
        Keyword::Leave => shapes::leave(rest),
        Keyword::Set => shapes::set(rest),
        Keyword::Step => alone(rest, Command::Step),
        Keyword::Run => alone(rest, Command::Run),
        Keyword::Rest => alone(rest, Command::Rest),
        Keyword::Touching => shapes::touching(rest),
        Keyword::List => alone(rest, Command::List),
        Keyword::Certificate => shapes::certificate(rest),
        Keyword::Leg => shapes::leg(rest),
        Keyword::Follows => shapes::follows(rest),
        Keyword::Cues => alone(rest, Command::Cues),
    }
}

/// Reads a line, given without its end; one without a word is no command. One longer than 1,000 bytes, spaces and
/// comment counted, cannot be read.
pub fn parse(line: &[u8]) -> Result<Option<Command>, Unreadable>
    ensures { result ≡ parsed_of line.now }
{
    if line.len() > 1000 {
        return Err(Unreadable);
    }
    let text = before_comment(line);
    let mut words = Words::new(text);
    let Some(first) = words.next() else {
        return Ok(None);
    };
    let key = Keyword::try_from(first)?;
    if matches!(key, Keyword::File) && !may_file(text) {
        return Err(Unreadable);
    }
    let command = command(key, words).ok_or(Unreadable)?;
    Ok(Some(command))
}
