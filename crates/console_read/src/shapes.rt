//! The commands' words: how many there are, which are fixed, and how the others are read. Each reader takes the words that are left after
//! the first, which it never looks at; its definition is over all of them.
ghost use Rattle.std.specs.Prelude.{◌≡◌, ℕ, List, ◌∷◌};
ghost use Rattle.console_read.specs.Shapes.{left, ended_of, xyz_of, open_of, room_of, ride_of, enter_of, leave_of, set_of, touching_of, certificate_of, leg_of, follows_of};

use crate::command::{Book, Command, Queue};
use console_text::numbers::{number, time, unsigned};
use console_text::{Numeral, Words};
use fleet::Xyz;

/// A number on each axis.
pub fn xyz<T: Numeral + Drop>(x: &[u8], y: &[u8], z: &[u8]) -> Option<Xyz<T>>
    ensures { result ≡ xyz_of (T.written x.now) (T.written y.now) (T.written z.now) }
{
    Some(Xyz {
        x: number(x)?,
        y: number(y)?,
        z: number(z)?,
    })
}

/// Whether no word is left: none where one is.
pub fn ended(mut rest: Words<'_>) -> Option<()>
    ensures { result ≡ ended_of (left rest.entry) }
{
    match rest.next() {
        None => Some(()),
        Some(_) => None,
    }
}

/// `open BOOK LAYERS QUEUE`, with at most 4 layers.
pub fn open(mut rest: Words<'_>) -> Option<Command>
    ensures { (first : List ℕ) → result ≡ open_of (first ∷ left rest.entry) }
{
    let (book, layers, queue) = (rest.next()?, rest.next()?, rest.next()?);
    ended(rest)?;
    Some(Command::Open {
        book: Book::try_from(book).ok()?,
        layers: u8::try_from(unsigned(layers, 4)?).ok()?,
        queue: Queue::try_from(queue).ok()?,
    })
}

/// `room SLIP PAGE LIST`, each at most 1,000,000.
pub fn room(mut rest: Words<'_>) -> Option<Command>
    ensures { (first : List ℕ) → result ≡ room_of (first ∷ left rest.entry) }
{
    let (slip, page, list) = (rest.next()?, rest.next()?, rest.next()?);
    ended(rest)?;
    let slip = unsigned(slip, 1_000_000)?;
    let page = unsigned(page, 1_000_000)?;
    let list = unsigned(list, 1_000_000)?;
    Some(Command::Room { slip, page, list })
}

/// `ride C LEVEL on K` or `ride C LEVEL off`.
pub fn ride(mut rest: Words<'_>) -> Option<Command>
    ensures { (first : List ℕ) → result ≡ ride_of (first ∷ left rest.entry) }
{
    let craft: u8 = number(rest.next()?)?;
    let level: u8 = number(rest.next()?)?;
    match rest.next()? {
        b"off" => {
            ended(rest)?;
            Some(Command::Ride {
                craft,
                level,
                carrier: None,
            })
        }
        b"on" => {
            let carrier = rest.next()?;
            ended(rest)?;
            let carrier: u8 = number(carrier)?;
            Some(Command::Ride {
                craft,
                level,
                carrier: Some(carrier),
            })
        }
        _ => None,
    }
}

/// `enter C HX HY HZ`.
pub fn enter(mut rest: Words<'_>) -> Option<Command>
    ensures { (first : List ℕ) → result ≡ enter_of (first ∷ left rest.entry) }
{
    let (craft, x, y, z) = (rest.next()?, rest.next()?, rest.next()?, rest.next()?);
    ended(rest)?;
    let craft = number(craft)?;
    let half = xyz(x, y, z)?;
    Some(Command::Enter { craft, half })
}

// No plainer as one function over the command to make: each reader takes its words in turn and makes a command with names.

/// `leave C`.
pub fn leave(mut rest: Words<'_>) -> Option<Command>
    ensures { (first : List ℕ) → result ≡ leave_of (first ∷ left rest.entry) }
{
    let craft = rest.next()?;
    ended(rest)?;
    let craft: u8 = number(craft)?;
    Some(Command::Leave { craft })
}

/// `set TIME`.
pub fn set(mut rest: Words<'_>) -> Option<Command>
    ensures { (first : List ℕ) → result ≡ set_of (first ∷ left rest.entry) }
{
    let at = rest.next()?;
    ended(rest)?;
    let time = time(at)?;
    Some(Command::Set { time })
}

/// `touching A B`.
pub fn touching(mut rest: Words<'_>) -> Option<Command>
    ensures { (first : List ℕ) → result ≡ touching_of (first ∷ left rest.entry) }
{
    let (a, b) = (rest.next()?, rest.next()?);
    ended(rest)?;
    let a = number(a)?;
    let b = number(b)?;
    Some(Command::Touching { a, b })
}

/// `certificate SLOT`.
pub fn certificate(mut rest: Words<'_>) -> Option<Command>
    ensures { (first : List ℕ) → result ≡ certificate_of (first ∷ left rest.entry) }
{
    let slot = rest.next()?;
    ended(rest)?;
    let slot: u16 = number(slot)?;
    Some(Command::Certificate { slot })
}

/// `leg C TIME`.
pub fn leg(mut rest: Words<'_>) -> Option<Command>
    ensures { (first : List ℕ) → result ≡ leg_of (first ∷ left rest.entry) }
{
    let (craft, at) = (rest.next()?, rest.next()?);
    ended(rest)?;
    let craft = number(craft)?;
    let time = time(at)?;
    Some(Command::Leg { craft, time })
}

/// `follows D C`.
pub fn follows(mut rest: Words<'_>) -> Option<Command>
    ensures { (first : List ℕ) → result ≡ follows_of (first ∷ left rest.entry) }
{
    let (d, c) = (rest.next()?, rest.next()?);
    ended(rest)?;
    let d = number(d)?;
    let c = number(c)?;
    Some(Command::Follows { d, c })
}
