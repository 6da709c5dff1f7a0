//! An open console: a book, a queue, and the commands that they answer.
ghost use Rattle.std.specs.Prelude.{◌≡◌};
ghost use Rattle.books.specs.Told.{filing as filing_of, seating, leg_told};
ghost use Rattle.rules.specs.Books.{changed};
ghost use Rattle.queues.specs.Meanings.{soonest, is_nothing};
ghost use Rattle.rehearsal.specs.Filings.{typed_plan};
ghost use Rattle.rehearsal.specs.Asking.{opening_refusal, refused_by, leg_typed};

use crate::cues::{Cue, cue_sheet};
use crate::filing::plan;
use crate::reading::read;
use crate::telling;
use books::FlightBook;
use console_read::{Clock, Command, Filing, Unreadable, stopped};
use console_text::TimeText;
use console_write::cannot_read;
use console_write::clock::room;
use console_write::stops::said;
use fleet::Craft;
use plans::LegAnswer;
use queues::EventQueue;
use std::alloc::Global;
use std::fmt;
use times::{Refusal, Time};

/// An open console.
#[derive(Drop)]
pub struct Desk<B: FlightBook, Q: EventQueue> {
    book: B,
    queue: Q,
    sheet: Vec<Cue>,
}

/// Whether a console opens; refused where the book's scale is above 8, or the queue holds something.
pub fn may_open<B: FlightBook, Q: EventQueue>(book: &B, queue: &Q) -> Result<(), Refusal>
    ensures { result ≡ refused_by (opening_refusal (B.meaning book.now).scale (is_nothing (soonest (Q.holds queue.now)))) }
{
    if book.scale() > 8 {
        return Err(Refusal::Scale);
    }
    if !queue.is_empty() {
        return Err(Refusal::QueueHolds);
    }
    Ok(())
}

/// The leg question as it is typed: the craft is looked at first, then the time.
fn leg_asked<B: FlightBook>(book: &B, craft: u8, time: TimeText) -> Result<LegAnswer, Refusal>
    ensures { leg_told result ≡ leg_typed (B.meaning book.now) craft time.n time.d }
{
    book.leg(Craft::new(craft)?.number, Time::new(time.n, time.d)?)
}

impl<B: FlightBook, Q: EventQueue> Desk<B, Q> {
    /// A console over a book and a queue.
    pub fn new(book: B, queue: Q, heap: Global) -> Desk<B, Q> {
        Desk {
            book,
            queue,
            sheet: Vec::new(heap),
        }
    }

    /// Files the plan that is typed.
    fn file(&mut self, filing: &Filing, out: &mut String) -> fmt::Result
        ensures { B.meaning self.new.book ≡ changed (filing_of filing.now.craft (typed_plan filing.now)) (B.meaning self.old.book) }
    {
        let answer = self.book.file(filing.craft, plan(filing));
        telling::change(out, "file", answer)
    }

    /// Sets or empties a seat.
    fn ride(&mut self, craft: u8, level: u8, carrier: Option<u8>, out: &mut String) -> fmt::Result
        ensures { B.meaning self.new.book ≡ changed (seating craft level carrier) (B.meaning self.old.book) }
    {
        let answer = self.book.ride(craft, level, carrier);
        telling::change(out, "ride", answer)
    }

    /// Carries out a command of an open console.
    fn work(&mut self, command: &Command, out: &mut String) -> fmt::Result {
        match command {
            Command::Room { slip, page, list } => room(out, *slip, *page, *list),
            Command::File(filing) => self.file(filing, out),
            Command::Ride {
                craft,
                level,
                carrier,
            } => self.ride(*craft, *level, *carrier, out),
            Command::Leg { craft, time } => telling::leg(out, leg_asked(&self.book, *craft, *time)),
            Command::Follows { d, c } => telling::follows(
                out,
                "follows",
                self.book.follows(*d, *c),
            ),
            Command::Cues => cue_sheet(&self.book, &mut self.queue, &mut self.sheet, out),
            _ => Ok(()),
        }
    }

    /// Answers a command.
    fn answer(&mut self, command: &Command, out: &mut String) -> fmt::Result {
        match stopped(command, Some(Clock::Quiet)) {
            Ok(()) => self.work(command, out),
            Err(stop) => said(out, command.keyword(), stop),
        }
    }

    /// Answers line number k.
    pub fn line(&mut self, line: &[u8], k: u64, out: &mut String) -> fmt::Result {
        match read(line) {
            Ok(None) => Ok(()),
            Ok(Some(command)) => self.answer(&command, out),
            Err(Unreadable) => cannot_read(out, k),
        }
    }
}
