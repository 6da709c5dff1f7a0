//! What is looked at before a command is carried out: whether the console is open, and the kind of its clock.
ghost use Rattle.std.specs.Prelude.{◌≡◌, Some};
ghost use Rattle.console_read.specs.Gates.{need_of, stopped_by, stop_text};

use crate::command::Command;
use std::error::Error;
use std::fmt;

/// The kind of a clock: the one that an open console has, or that a command needs.
#[derive(Clone, Copy, PartialEq, Eq, Debug)]
pub enum Clock {
    Quiet,
    Due,
}

/// Why a command is not carried out.
#[derive(Clone, Copy, PartialEq, Eq, Debug)]
pub enum Stop {
    NotOpen,
    AlreadyOpen,
    ClockIsQuiet,
    ClockIsDue,
}

impl Stop {
    /// Why, in words.
    pub fn as_str(self) -> &'static str
        ensures { result.now ≡ stop_text self }
    {
        match self {
            Stop::NotOpen => "not open",
            Stop::AlreadyOpen => "already open",
            Stop::ClockIsQuiet => "clock is quiet",
            Stop::ClockIsDue => "clock is due",
        }
    }
}

impl fmt::Display for Stop {
    ghost output = { λ stop. Some (stop_text stop) };

    fn fmt<W: fmt::Write>(&self, f: &mut fmt::Formatter<W>) -> fmt::Result {
        f.write_str(self.as_str())
    }
}

impl Error for Stop {}

/// The clock that a command needs, if it needs one.
pub fn clock_needed(command: &Command) -> Option<Clock>
    ensures { result ≡ need_of command.now }
{
    match command {
        Command::Step | Command::Run | Command::Rest => Some(Clock::Due),
        Command::File(_) | Command::Ride { .. } | Command::Enter { .. } | Command::Leave { .. } =>
            Some(Clock::Quiet),
        Command::Set { .. } | Command::Touching { .. } | Command::List => Some(Clock::Quiet),
        _ => None,
    }
}

/// Whether a command is carried out with the clock of an open console, or on a closed console where there is none.
pub fn stopped(command: &Command, clock: Option<Clock>) -> Result<(), Stop>
    ensures { result ≡ stopped_by command.now clock }
{
    match (command, clock) {
        (Command::Room { .. }, _) => Ok(()),
        (Command::Open { .. }, None) => Ok(()),
        (Command::Open { .. }, Some(_)) => Err(Stop::AlreadyOpen),
        (_, None) => Err(Stop::NotOpen),
        (_, Some(clock)) => match (clock_needed(command), clock) {
            (Some(Clock::Due), Clock::Quiet) => Err(Stop::ClockIsQuiet),
            (Some(Clock::Quiet), Clock::Due) => Err(Stop::ClockIsDue),
            _ => Ok(()),
        },
    }
}
