//! The lines of the input.
ghost use Rattle.std.specs.Prelude.{◌≡◌, length};
ghost use Rattle.std.specs.Iterator.{at_most};
ghost use Rattle.console_text.specs.Texts.{without_return, after_line, next_line};
ghost use Rattle.console_text.specs.Lent.{lent};

use crate::text::split_once;

/// The lines of the input, one after another, without their ends: a line feed, or a carriage return and a line feed.
/// The last line may also end with the input.
#[derive(Drop)]
pub struct Lines<'a> {
    /// The bytes that are not yet read.
    rest: &'a [u8],
}

/// A line without the carriage return before its line feed.
fn without_return(line: &[u8]) -> &[u8]
    ensures { result.now ≡ without_return line.now }
{
    match line {
        [line @ .., b'\r'] => line,
        _ => line,
    }
}

impl<'a> Lines<'a> {
    /// The lines of these bytes.
    pub fn new(bytes: &'a [u8]) -> Lines<'a>
        ensures { result.rest.now ≡ bytes.now }
    {
        Lines { rest: bytes }
    }
}

impl<'a> Iterator for Lines<'a> {
    type Item = &'a [u8];

    ghost next_gives = { λ s r t. (lent r ≡ next_line s.rest.now) × (t.rest.now ≡ after_line s.rest.now) };

    ghost remaining = { λ s. at_most (length s.rest.now) };

    /// The next line, or none at the end of the input.
    fn next(&mut self) -> Option<&'a [u8]> {
        if self.rest.is_empty() {
            return None;
        }
        match split_once(self.rest, b'\n') {
            Some((line, rest)) => {
                self.rest = rest;
                Some(without_return(line))
            }
            None => {
                let line = self.rest;
                self.rest = &[];
                Some(line)
            }
        }
    }
}
