//! Lines as this console reads them.
ghost use Rattle.std.specs.Prelude.{◌≡◌};
ghost use Rattle.console_read.specs.Parsing.{parsed_of};
ghost use Rattle.rehearsal.specs.Reading.{hall_work, heard_of};

use console_read::{Command, Unreadable, parse};

/// Whether a command needs the hall, with its boxes and clock. This console has none.
fn needs_hall(command: &Command) -> bool
    ensures { result ≡ hall_work command.now }
{
    match command {
        Command::Enter { .. } | Command::Leave { .. } | Command::Set { .. } => true,
        Command::Step | Command::Run | Command::Rest => true,
        Command::Touching { .. } | Command::List | Command::Certificate { .. } => true,
        _ => false,
    }
}

/// Reads a line, given without its end. The hall's commands cannot be read.
pub fn read(line: &[u8]) -> Result<Option<Command>, Unreadable>
    ensures { result ≡ heard_of (parsed_of line.now) }
{
    match parse(line)? {
        Some(command) if needs_hall(&command) => Err(Unreadable),
        command => Ok(command),
    }
}
