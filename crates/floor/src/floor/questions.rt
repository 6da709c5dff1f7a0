//! Making a floor, and asking it.
ghost use Rattle.std.specs.Prelude.{◌≡◌, ◌<◌};
ghost use Rattle.rules.specs.Slots.{slot};
ghost use Rattle.fleet.specs.Axes.{axis_of};
ghost use Rattle.times.specs.Of.{time_of};
ghost use Rattle.slots.specs.Numbers.{number_in, number_told};
ghost use Rattle.books.specs.Told.{leg_told, leg_answer, follow_told, follow_answer};
ghost use Rattle.tables.specs.Tables.{empty};
ghost use Rattle.model.specs.Halls.{in_hall, together, left, certificate_in, next_due};
ghost use Rattle.floor.specs.Of.{joined, hall_of, certificate_told, due_told};

use crate::floor::Floor;
use books::FlightBook;
use fleet::{Axis, Craft};
use plans::LegAnswer;
use queues::{Entry, EventQueue, Slot};
use slots::{BitSlot, Number, not_after};
use tables::Tables;
use times::{Moment, Refusal, Time};

impl<B: FlightBook, Q: EventQueue> Floor<B, Q> {
    /// A floor over a book and a queue, with no craft entered and no number granted.
    pub fn new(book: B, queue: Q) -> Floor<B, Q>
        ensures { hall_of B.meaning Q.holds result ≡ joined (B.meaning book) (Q.holds queue) empty }
    {
        Floor {
            book,
            queue,
            tables: Tables::new(),
        }
    }

    /// Whether a craft is entered.
    pub fn is_entered(&self, c: Craft) -> bool
        ensures { result ≡ in_hall (hall_of B.meaning Q.holds self.now) c.number }
    {
        self.tables.is_entered(c)
    }

    /// How many numbers are left.
    pub fn left(&self) -> u32
        ensures { result ≡ left (hall_of B.meaning Q.holds self.now) }
    {
        20000000 - self.tables.last().value
    }

    /// The bit of two craft on an axis.
    pub fn bit(&self, axis: Axis, c: Craft, d: Craft) -> bool
        ensures { result ≡ (hall_of B.meaning Q.holds self.now).bit (slot (axis_of axis) c.number d.number) }
    {
        self.tables.bit(BitSlot::of(axis, c, d))
    }

    /// Whether two craft overlap by their bits: all three are set.
    pub fn together(&self, c: Craft, d: Craft) -> bool
        ensures { result ≡ together c.number d.number (hall_of B.meaning Q.holds self.now) }
    {
        self.bit(Axis::X, c, d) && self.bit(Axis::Y, c, d) && self.bit(Axis::Z, c, d)
    }

    /// The number of the certificate that stands in a slot, or none.
    pub fn number(&self, slot: Slot) -> Option<Number>
        ensures { number_told result ≡ number_in ((hall_of B.meaning Q.holds self.now).number slot.number) }
    {
        self.tables.number(slot)
    }

    /// The certificate that stands in a slot: its number, and the moment at which it fails, or never; or none.
    pub fn certificate(&self, slot: Slot) -> Option<(u32, Option<Moment>)>
        ensures { certificate_told result ≡ certificate_in slot.number (hall_of B.meaning Q.holds self.now) }
    {
        let number = self.number(slot)?;
        let moment = self.queue.moment(slot.number).ok()?;
        Some((number.value, moment))
    }

    /// The slot that is due first with its moment, where that is not after the goal itself.
    pub fn due(&self, goal: Time) -> Option<Entry>
        ensures { due_told result ≡ next_due (time_of goal) (hall_of B.meaning Q.holds self.now) }
    {
        let (number, moment) = not_after(goal, self.queue.first())?;
        Some(Entry {
            slot: Slot { number },
            moment,
        })
    }

    /// The leg of a craft's path at a time, and the path's first break after it, as the book tells them.
    pub fn leg(&self, c: u8, t: Time) -> Result<LegAnswer, Refusal>
        ensures { leg_told result ≡ leg_answer (hall_of B.meaning Q.holds self.now).book c (time_of t) }
    {
        self.book.leg(c, t)
    }

    /// Whether a craft follows a leader, as the book tells it.
    pub fn follows(&self, c: u8, leader: u8) -> Result<bool, Refusal>
        ensures { follow_told result ≡ follow_answer (hall_of B.meaning Q.holds self.now).book c leader }
    {
        self.book.follows(c, leader)
    }

    /// How many legs a filed plan may have.
    pub fn leg_limit(&self) -> u8
        ensures { result ≡ (hall_of B.meaning Q.holds self.now).book.limit }
    {
        self.book.leg_limit()
    }

    /// How many levels of seats there are.
    pub fn levels(&self) -> u8
        ensures { result ≡ (hall_of B.meaning Q.holds self.now).book.levels }
    {
        self.book.levels()
    }
}
