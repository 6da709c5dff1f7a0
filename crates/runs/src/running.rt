//! A run: steps one after another, until nothing is due.
ghost use Rattle.std.specs.Prelude.{◌≡◌, ◌+◌, ◌≤◌, length, MatchResult};
ghost use Rattle.times.specs.Of.{time_of, moment_of};
ghost use Rattle.model.specs.Runs.{records};
ghost use Rattle.floor_laws.specs.Writing.{written};
ghost use Rattle.floor.specs.Of.{hall_of};
ghost use Rattle.runs.specs.Encounters.{encounter_told};
ghost use Rattle.runs.specs.Running.{ended_number, Next, Stop, Went};

use crate::ended::Ended;
use crate::stepping::step;
use books::FlightBook;
use floor::Floor;
use pages::{Encounter, PageWriter, RECORD};
use queues::{Entry, EventQueue};
use slots::Slip;
use times::Time;

/// How a run ended, after how many steps, and how many lines and bytes it wrote.
#[derive(Clone, Copy)]
pub struct Ran {
    pub ended: Ended,
    pub steps: u32,
    pub lines: usize,
    pub bytes: usize,
}

/// The next step of a run with room for so many lines and bytes: what is due; or how the run ends.
/// A step writes at most 380 lines and one record, and grants at most 190 numbers.
fn next<B: FlightBook, Q: EventQueue>(
    floor: &Floor<B, Q>,
    goal: Time,
    lines: usize,
    bytes: usize,
) -> Result<Entry, Ended>
    ensures { MatchResult result (λ d. Next (time_of goal) lines bytes (hall_of B.meaning Q.holds floor.now) (d.slot.number, moment_of d.moment)) (λ e. Stop (time_of goal) lines bytes (hall_of B.meaning Q.holds floor.now) (ended_number e)) }
{
    let due = floor.due(goal).ok_or(Ended::NothingDue)?;
    if lines < 380 || bytes < RECORD {
        return Err(Ended::Room);
    }
    if floor.left() < 190 {
        return Err(Ended::Numbers);
    }
    Ok(due)
}

/// Writes the record of a step's news on the page, if there is any.
fn write_news(page: &mut PageWriter, news: Option<Encounter>, time: Time)
    requires { page.old.used + 11 ≤ length page.old.page.now }
    ensures used { page.new.used ≡ page.old.used + length (records (time_of time) (encounter_told news)) }
    ensures page { page.new.page.now ≡ written page.old.used (records (time_of time) (encounter_told news)) page.old.page.now }
    ensures same { page.new.page.ghost_name ≡ page.old.page.ghost_name }
{
    if let Some(told) = news {
        let _ = page.write(told.at(time));
    }
}

/// Steps until nothing is due by the goal, on a slip and a page that are not yet used.
fn go_on<B: FlightBook, Q: EventQueue>(
    floor: &mut Floor<B, Q>,
    goal: Time,
    slip: &mut Slip,
    page: &mut PageWriter,
) -> Ran
    requires slip { slip.old.used ≡ 0 }
    requires page { page.old.used ≡ 0 }
    ensures went { Went (time_of goal) (hall_of B.meaning Q.holds floor.old) (hall_of B.meaning Q.holds floor.new) slip.old.lines.now slip.new.lines.now page.old.page.now page.new.page.now (ended_number result.ended) result.steps result.lines result.bytes }
    ensures slip { slip.new.lines.ghost_name ≡ slip.old.lines.ghost_name }
    ensures page { page.new.page.ghost_name ≡ page.old.page.ghost_name }
{
    let mut steps = 0;
    let ended = 'steps: loop {
        match next(floor, goal, slip.lines.len() - slip.used, page.left()) {
            Ok(due) => {
                let done = step(floor, due, slip);
                write_news(page, done.news, done.time);
                steps += 1;
            }
            Err(ended) => break ended,
        }
    };
    Ran {
        ended,
        steps,
        lines: slip.used,
        bytes: page.used(),
    }
}

/// Steps until nothing is due by the goal, with the lines from the slip's start and the records of meetings and partings from the
/// page's start. Before each step it ends where nothing is due, then where lines or bytes might not suffice, then where numbers might not.
pub fn run<B: FlightBook, Q: EventQueue>(
    floor: &mut Floor<B, Q>,
    goal: Time,
    slip: &mut [u32],
    page: &mut [u8],
) -> Ran
    ensures { Went (time_of goal) (hall_of B.meaning Q.holds floor.old) (hall_of B.meaning Q.holds floor.new) slip.old slip.new page.old page.new (ended_number result.ended) result.steps result.lines result.bytes }
{
    let mut lines = Slip::new(slip);
    let mut records = PageWriter::new(page);
    go_on(floor, goal, &mut lines, &mut records)
}
