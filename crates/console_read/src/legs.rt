//! `file C at X Y Z`, then legs of 5 words each, then `end E`.
ghost use Rattle.std.specs.Prelude.{◌≡◌, ◌≤◌, ℕ, List, ◌∷◌, length, drop, IfSome};
ghost use Rattle.console_text.specs.Texts.{words};
ghost use Rattle.console_read.specs.Shapes.{left, leg_text, plan_from, file_of, is_plan_long};

use crate::command::{Command, Filing, LegText, MOST_LEGS};
use crate::shapes::{ended, xyz};
use console_text::Words;
use console_text::numbers::number;
use fleet::Xyz;

/// How many words a text of at most 1,000 bytes has: each begins at a byte other than a space, after a space or at the start.
fn count(text: &[u8]) -> u16
    requires { length text.now ≤ 1000 }
    ensures { result ≡ length (words text.now) }
{
    let mut n = 0;
    let mut last = b' ';
    for byte in text {
        n += u16::from(last == b' ' && *byte != b' ');
        last = *byte;
    }
    n
}

/// Whether a text has as many words as a plan of 0 to 20 legs: so one of more or fewer is refused before its numbers are read.
pub fn may_file(text: &[u8]) -> bool
    requires { length text.now ≤ 1000 }
    ensures { result ≡ is_plan_long (length (words text.now)) }
{
    let n = count(text);
    n >= 8 && n <= 108 && n % 5 == 3
}

/// `leg T VX VY VZ`, from its first word on.
fn leg(word: &[u8], rest: &mut Words<'_>) -> Option<LegText>
    ensures read { result ≡ leg_text (word.now ∷ left rest.old) }
    ensures moved { IfSome result (λ _. left rest.new ≡ drop 4 (left rest.old)) }
{
    let b"leg" = word else {
        return None;
    };
    let start = number(rest.next()?)?;
    let speed = xyz(rest.next()?, rest.next()?, rest.next()?)?;
    Some(LegText { start, speed })
}

/// `leg T VX VY VZ .. end E`, with 0 to 20 legs: the plan of a craft that begins there.
fn plan(craft: u8, at: Xyz<i32>, mut rest: Words<'_>) -> Option<Command>
    ensures { result ≡ plan_from craft at (left rest.entry) }
{
    let mut legs = [LegText::default(); MOST_LEGS];
    let mut count: u8 = 0;
    loop {
        match rest.next()? {
            b"end" => {
                let end = number(rest.next()?)?;
                ended(rest)?;
                return Some(Command::File(Filing {
                    craft,
                    at,
                    legs,
                    count,
                    end,
                }));
            }
            word => {
                if usize::from(count) >= MOST_LEGS {
                    return None;
                }
                legs[usize::from(count)] = leg(word, &mut rest)?;
                count += 1;
            }
        }
    }
}

/// `file C at X Y Z leg T VX VY VZ .. end E`, with 0 to 20 legs.
pub fn file(mut rest: Words<'_>) -> Option<Command>
    ensures { (first : List ℕ) → result ≡ file_of (first ∷ left rest.entry) }
{
    let craft = number(rest.next()?)?;
    let b"at" = rest.next()? else {
        return None;
    };
    let at = xyz(rest.next()?, rest.next()?, rest.next()?)?;
    plan(craft, at, rest)
}
