//! The cue sheet: every break tick above 0 of every craft's path, in time order, equal ticks by craft.
ghost use Rattle.std.specs.Prelude.{◌≡◌, ◌+◌, ◌%◌, ◌++◌, string_bytes, OnOk};
ghost use Rattle.times.specs.Of.{time_of};
ghost use Rattle.queues.specs.Meanings.{stored, soonest};
ghost use Rattle.rehearsal.specs.Cues.{tick_stamp, next_stamp, loaded, cue_told, cue_left, cues_in};
ghost use Rattle.rehearsal.specs.Sheets.{sheet_text};

use books::FlightBook;
use console_write::clock;
use fleet::Craft;
use queues::{EventQueue, Slot, keep};
use std::alloc::AllocError;
use std::fmt;
use times::{Moment, Time};

/// A break tick of a craft's path.
#[derive(Clone, Copy, PartialEq, Eq, Debug)]
pub struct Cue {
    pub tick: u16,
    pub craft: u8,
}

/// The slot of craft 0; it is 192 × 64.
const FIRST_SLOT: u16 = 12288;

/// More cues than any book has: 64 craft with a break at each tick from 1 to 50,000.
const MOST: u32 = 3_200_000;

/// The slot of a craft.
fn slot_of(craft: Craft) -> Slot
    ensures { result.number ≡ 12288 + craft.number }
{
    Slot {
        number: FIRST_SLOT + u16::from(craft.number),
    }
}

/// The craft of a slot.
fn craft_of(slot: u16) -> Craft
    ensures { result.number ≡ slot % 64 }
{
    Craft {
        number: (slot % 64) as u8,
    }
}

/// The moment of a tick; none above 50,000, where no path has a break.
fn moment_at(tick: u16) -> Option<Moment>
    ensures { stored result ≡ tick_stamp tick }
{
    Time::at_tick(tick).ok().map(Moment::at)
}

/// The moment of a craft's first break after a time.
fn next_cue<B: FlightBook>(book: &B, craft: Craft, t: Time) -> Option<Moment>
    ensures { stored result ≡ next_stamp (B.meaning book.now) craft.number (time_of t) }
{
    moment_at(book.leg(craft.number, t).ok()?.next?)
}

/// Puts each craft's first break after time 0 into the queue.
fn load<B: FlightBook, Q: EventQueue>(book: &B, queue: &mut Q)
    ensures { Q.holds queue.new ≡ loaded (B.meaning book.now) 64 (Q.holds queue.old) }
{
    for number in 0..64u8 {
        let craft = Craft { number };
        let _ = keep(
            queue,
            slot_of(craft).number,
            next_cue(book, craft, Time::zero()),
        );
    }
}

/// Takes the first cue off the queue, and puts the next one of its craft there.
fn take_cue<B: FlightBook, Q: EventQueue>(book: &B, queue: &mut Q) -> Option<Cue>
    ensures told { result ≡ cue_told (soonest (Q.holds queue.old)) }
    ensures left { Q.holds queue.new ≡ cue_left (B.meaning book.now) (Q.holds queue.old) (soonest (Q.holds queue.old)) }
{
    let (slot, moment) = queue.first()?;
    let craft = craft_of(slot);
    let _ = keep(queue, slot, next_cue(book, craft, moment.time));
    Some(Cue {
        tick: moment.time.whole(),
        craft: craft.number,
    })
}

/// Takes cues off the queue, and appends them to the sheet, until there is none.
// The proof did not close as a `for` over `iter::from_fn(..).take(..)`: the check refuses its own statement of an iterator over a
// closure that borrows a queue of any type.
fn run_out<B: FlightBook, Q: EventQueue>(
    book: &B,
    queue: &mut Q,
    sheet: &mut Vec<Cue>,
) -> Result<(), AllocError>
    ensures { OnOk result (sheet.new.items ≡ sheet.old.items ++ cues_in 3200000 (B.meaning book.now) (Q.holds queue.old)) }
{
    for n in 0..MOST {
        let Some(cue) = take_cue(book, queue) else {
            return Ok(());
        };
        sheet.push(cue)?;
    }
    Ok(())
}

/// `cues: K`, and a line for each cue.
fn tell(out: &mut String, sheet: &[Cue]) -> fmt::Result
    ensures { OnOk result (string_bytes out.new ≡ string_bytes out.old ++ sheet_text sheet.now) }
{
    clock::cues(out, sheet.len())?;
    for cue in sheet {
        clock::cue(out, cue.tick, cue.craft)?;
    }
    Ok(())
}

/// The cue sheet of a book, found by way of an empty queue, which is empty again after it.
pub fn cue_sheet<B: FlightBook, Q: EventQueue>(
    book: &B,
    queue: &mut Q,
    sheet: &mut Vec<Cue>,
    out: &mut String,
) -> fmt::Result
    ensures { OnOk result (string_bytes out.new ≡ string_bytes out.old ++ sheet_text (cues_in 3200000 (B.meaning book.now) (loaded (B.meaning book.now) 64 (Q.holds queue.old)))) }
{
    sheet.clear();
    load(book, queue);
    run_out(book, queue, sheet)?;
    tell(out, sheet.as_slice())
}
