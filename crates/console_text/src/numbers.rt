//! Numbers and times as they may be written.
ghost use Rattle.std.specs.Prelude.{◌≡◌, ◌==◌, ℕ, true, not, position, List, None, Option, Result, refl};
ghost use Rattle.std.specs.Int.{w16, w32};
ghost use Rattle.std.specs.Result.{result_ok};
ghost use Rattle.std.specs.Str.{IsUtf8};
ghost use Rattle.std.specs.declared.num.ParseIntError.{ParseIntError};
ghost use Rattle.console_text.specs.Numbers.{after_sign, after_zeros, is_too_long, unsigned_in, signed_in, time_in};
ghost use Rattle.console_text.specs.Digits.{unsigned_read, unsigned_none, unsigned_long, signed_read, signed_none, signed_long};

use crate::text::split_once;
use std::num::ParseIntError;
use std::str::{self, FromStr};

/// A number of some width, as it may be written: digits, with one `+` in front or none, or a `-` where it has a sign.
pub trait Numeral: FromStr<Err = ParseIntError> {
    // the number that a word writes
    ghost written: { List ℕ → Option Self };

    // the library reads just that, and a word that is no text writes none
    ghost reads: { (word : List ℕ) → (¬ (IsUtf8 word) → written word ≡ None) × ((r : Result Self ParseIntError) → Self.from_str_gives word r → result_ok r ≡ written word) };

    // a word that is too long writes none
    ghost too_long: { (word : List ℕ) → is_too_long word ≡ true → written word ≡ None };
}

impl Numeral for u8 {
    ghost written = { unsigned_in 255 };

    ghost reads = { λ w. (unsigned_none 255 w, λ r h. unsigned_read 8 255 refl w r h.0) };

    ghost too_long = { unsigned_long 255 refl };
}

impl Numeral for u16 {
    ghost written = { unsigned_in 65535 };

    ghost reads = { λ w. (unsigned_none 65535 w, λ r h. unsigned_read 16 65535 refl w r h.0) };

    ghost too_long = { unsigned_long 65535 refl };
}

impl Numeral for u32 {
    ghost written = { unsigned_in 4294967295 };

    ghost reads = { λ w. (unsigned_none 4294967295 w, λ r h. unsigned_read 32 4294967295 refl w r h.0) };

    ghost too_long = { unsigned_long 4294967295 refl };
}

impl Numeral for i16 {
    ghost written = { signed_in 32768 32767 };

    ghost reads = { λ w. (signed_none 32768 32767 w, λ r h. signed_read w16 32768 32767 refl refl w r h.0) };

    ghost too_long = { signed_long 32768 32767 refl refl };
}

impl Numeral for i32 {
    ghost written = { signed_in 2147483648 2147483647 };

    ghost reads = { λ w. (signed_none 2147483648 2147483647 w, λ r h. signed_read w32 2147483648 2147483647 refl refl w r h.0) };

    ghost too_long = { signed_long 2147483648 2147483647 refl refl };
}

/// What stands after a sign.
fn after_sign(word: &[u8]) -> &[u8]
    ensures { result.now ≡ after_sign word.now }
{
    match word {
        [b'+' | b'-', digits @ ..] => digits,
        _ => word,
    }
}

/// Where the leading zeros end, or none where nothing else stands.
fn zeros_end(digits: &[u8]) -> Option<usize>
    ensures { result ≡ position (λ c. not (c == 48)) digits.now }
{
    digits.iter().position(|b| *b != b'0')
}

/// What stands after the leading zeros.
fn after_zeros(digits: &[u8]) -> &[u8]
    ensures { result.now ≡ after_zeros digits.now }
{
    match zeros_end(digits) {
        Some(k) => &digits[k..],
        None => &[],
    }
}

/// Whether a word is too long for a number of 32 bits, however it goes on: so little of it need be read.
fn is_too_long(word: &[u8]) -> bool
    ensures { result ≡ is_too_long word.now }
{
    word.len() > 10 && after_zeros(after_sign(word)).len() > 10
}

/// The number that a word writes.
pub fn number<T: Numeral>(word: &[u8]) -> Option<T>
    ensures { result ≡ T.written word.now }
{
    if is_too_long(word) {
        return None;
    }
    str::from_utf8(word).ok()?.parse().ok()
}

/// A number from 0 to `most`.
pub fn unsigned(word: &[u8], most: u32) -> Option<u32>
    ensures { result ≡ unsigned_in most word.now }
{
    number(word).filter(|n| *n <= most)
}

/// A time as it is written, N or N/D.
#[derive(Clone, Copy, PartialEq, Eq, PartialOrd, Ord, Hash, Default, Debug)]
pub struct TimeText {
    pub n: u32,
    pub d: u16,
}

/// A time N or N/D; N is N/1.
pub fn time(word: &[u8]) -> Option<TimeText>
    ensures { result ≡ time_in word.now }
{
    match split_once(word, b'/') {
        Some((n, d)) => Some(TimeText {
            n: number(n)?,
            d: number(d)?,
        }),
        None => Some(TimeText {
            n: number(word)?,
            d: 1,
        }),
    }
}
