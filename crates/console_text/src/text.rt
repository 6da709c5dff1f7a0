//! Searching bytes, and cutting them.
ghost use Rattle.std.specs.Prelude.{◌≡◌, ◌==◌, position, drop};
ghost use Rattle.std.specs.Str.{bytes_eq};
ghost use Rattle.console_text.specs.Texts.{split_once};
ghost use Rattle.console_text.specs.Lent.{lent_pair};

/// Where a byte first stands, or none where it does not.
pub fn find(bytes: &[u8], byte: u8) -> Option<usize>
    ensures { result ≡ position (λ c. c == byte) bytes.now }
{
    bytes.iter().position(|b| *b == byte)
}

/// What stands before the first such byte, and what after it, or none where it does not stand.
pub fn split_once(bytes: &[u8], byte: u8) -> Option<(&[u8], &[u8])>
    ensures { lent_pair result ≡ split_once byte bytes.now }
{
    let k = find(bytes, byte)?;
    Some((&bytes[..k], &bytes[k + 1..]))
}

/// Whether a word is this text.
pub fn is(word: &[u8], text: &[u8]) -> bool
    ensures { result ≡ bytes_eq word.now text.now }
{
    word == text
}

/// The bytes from number k on: none where there are not so many.
pub fn after(bytes: &[u8], k: usize) -> &[u8]
    ensures { result.now ≡ drop k bytes.now }
{
    bytes.get(k..).unwrap_or(&[])
}
