//! A step: one firing, and what it tells.
ghost use Rattle.std.specs.Prelude.{◌≡◌};
ghost use Rattle.times.specs.Of.{time_of, moment_of};
ghost use Rattle.model.specs.Moves.{fire};
ghost use Rattle.model.specs.Runs.{step as step_of};
ghost use Rattle.floor.specs.Of.{hall_of};
ghost use Rattle.floor.specs.Slips.{FitsIn, Moved};
ghost use Rattle.runs.specs.Encounters.{encounter_told};

use crate::encounters::{certificate_at, decide};
use books::FlightBook;
use fleet::Xyz;
use floor::Floor;
use pages::Encounter;
use queues::{Entry, EventQueue, Slot};
use slots::{Slip, higher_at, lower_at};
use times::Time;

/// What a step tells: the number that fired, its time, whether two craft met or parted, and where its lines end.
#[derive(Clone, Copy)]
pub struct Stepped {
    pub number: u32,
    pub time: Time,
    pub news: Option<Encounter>,
    pub end: usize,
}

/// What the firing of what is due will tell.
fn foretell<B: FlightBook, Q: EventQueue>(floor: &Floor<B, Q>, due: Entry) -> Option<Encounter>
    ensures { encounter_told result ≡ (step_of due.slot.number (moment_of due.moment) (hall_of B.meaning Q.holds floor.now)).news }
{
    let slot = due.slot.number;
    let (c, d) = (lower_at(slot), higher_at(slot));
    let bits = Xyz::from_fn(|axis| floor.bit(axis, c, d));
    decide(certificate_at(slot), due.moment.after, bits)
}

/// The number that stands in a slot, or 0.
fn number_in<B: FlightBook, Q: EventQueue>(floor: &Floor<B, Q>, slot: Slot) -> u32
    ensures { result ≡ (hall_of B.meaning Q.holds floor.now).number slot.number }
{
    // No plainer as an Option: a step tells a plain number, and what is due has one.
    floor.number(slot).map_or(0, |n| n.value)
}

/// Fires what is due, with its lines on the slip, and tells of it. It is public for the hall above: lines and numbers fit.
pub fn step<B: FlightBook, Q: EventQueue>(
    floor: &mut Floor<B, Q>,
    due: Entry,
    slip: &mut Slip,
) -> Stepped
    requires { FitsIn (fire due.slot.number (moment_of due.moment)) (hall_of B.meaning Q.holds floor.old) slip.old }
    ensures moved { Moved (fire due.slot.number (moment_of due.moment)) (hall_of B.meaning Q.holds floor.old) (hall_of B.meaning Q.holds floor.new) slip.old slip.new }
    ensures end { result.end ≡ slip.new.used }
    ensures number { result.number ≡ (step_of due.slot.number (moment_of due.moment) (hall_of B.meaning Q.holds floor.old)).number }
    ensures time { time_of result.time ≡ (step_of due.slot.number (moment_of due.moment) (hall_of B.meaning Q.holds floor.old)).time }
    ensures news { encounter_told result.news ≡ (step_of due.slot.number (moment_of due.moment) (hall_of B.meaning Q.holds floor.old)).news }
{
    let news = foretell(floor, due);
    let number = number_in(floor, due.slot);
    floor.fire(due, slip);
    Stepped {
        number,
        time: due.moment.time,
        news,
        end: slip.used,
    }
}
