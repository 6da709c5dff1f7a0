//! The words of a line.
ghost use Rattle.std.specs.Prelude.{◌≡◌, ◌==◌, not, position, [], length, slice_index_or};
ghost use Rattle.std.specs.Iterator.{YieldsFirstRef, item_count};
ghost use Rattle.console_text.specs.Texts.{before_comment, words};

use crate::text::{find, split_once};

/// A line without its comment, which begins at the first `#`.
pub fn before_comment(line: &[u8]) -> &[u8]
    ensures { result.now ≡ before_comment line.now }
{
    match split_once(line, b'#') {
        Some((text, _)) => text,
        None => line,
    }
}

/// Where a word first begins, or none where only spaces stand.
fn word_start(bytes: &[u8]) -> Option<usize>
    ensures { result ≡ position (λ c. not (c == 32)) bytes.now }
{
    bytes.iter().position(|b| *b != b' ')
}

/// The words of a line, one after another: the longest runs without a space.
#[derive(Drop)]
pub struct Words<'a> {
    /// The bytes that are not yet read.
    rest: &'a [u8],
}

impl<'a> Words<'a> {
    /// The words of these bytes.
    pub fn new(bytes: &'a [u8]) -> Words<'a>
        ensures { result.rest.now ≡ bytes.now }
    {
        Words { rest: bytes }
    }
}

impl<'a> Iterator for Words<'a> {
    type Item = &'a [u8];

    ghost next_gives = { YieldsFirstRef (λ s. words s.rest.now) };

    ghost remaining = { item_count (λ s. words s.rest.now) };

    /// The next word, or none where only spaces are left.
    fn next(&mut self) -> Option<&'a [u8]> {
        let start = word_start(self.rest)?;
        let rest = &self.rest[start..];
        let end = find(rest, b' ').unwrap_or(rest.len());
        let (word, rest) = rest.split_at(end);
        self.rest = rest;
        Some(word)
    }
}

/// How many words there are.
pub fn count(bytes: &[u8]) -> usize
    ensures { result ≡ length (words bytes.now) }
{
    Words::new(bytes).count()
}

/// Word number k from 0, or no bytes where there are not so many.
pub fn word(bytes: &[u8], k: usize) -> &[u8]
    ensures { result.now ≡ slice_index_or (words bytes.now) k [] }
{
    Words::new(bytes).nth(k).unwrap_or(&[])
}
