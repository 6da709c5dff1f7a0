//! The list of touching pairs.
ghost use Rattle.std.specs.Prelude.{◌≡◌, ◌+◌, ◌≤◌, length, MatchResult};
ghost use Rattle.model.specs.Refusals.{pairs};
ghost use Rattle.floor_laws.specs.Writing.{written};
ghost use Rattle.floor.specs.Of.{hall_of};
ghost use Rattle.times.specs.Refusals.{number_of};
ghost use Rattle.runs.specs.Listing.{listed, entry, row, Listed, TooShort};

use books::FlightBook;
use fleet::Craft;
use floor::Floor;
use queues::EventQueue;
use times::Refusal;

/// Whether two craft are listed: both are entered, the first is the lower number, and by their bits they overlap.
fn is_listed<B: FlightBook, Q: EventQueue>(floor: &Floor<B, Q>, c: Craft, d: Craft) -> bool
    ensures { result ≡ listed (hall_of B.meaning Q.holds floor.now) c.number d.number }
{
    floor.is_entered(c) && c < d && floor.is_entered(d) && floor.together(c, d)
}

/// A pair as a list entry: lower number × 64 + higher number.
fn entry_of(c: Craft, d: Craft) -> u16
    ensures { result ≡ entry c.number d.number }
{
    u16::from(c.number) * 64 + u16::from(d.number)
}

/// How many pairs of a craft with a higher number are listed.
fn count_row<B: FlightBook, Q: EventQueue>(floor: &Floor<B, Q>, c: Craft) -> usize
    ensures value { result ≡ length (row (hall_of B.meaning Q.holds floor.now) c.number) }
    ensures most { result ≤ 64 }
{
    let mut n = 0;
    // A rule of the project: the craft table is gone over by index, ascending.
    for d in 0..64 {
        if is_listed(floor, c, Craft { number: d }) {
            n += 1;
        }
    }
    n
}

/// How many pairs touch by their bits.
pub fn count_pairs<B: FlightBook, Q: EventQueue>(floor: &Floor<B, Q>) -> usize
    ensures { result ≡ length (pairs (hall_of B.meaning Q.holds floor.now)) }
{
    let mut n = 0;
    // A rule of the project: the craft table is gone over by index, ascending.
    for c in 0..64 {
        n += count_row(floor, Craft { number: c });
    }
    n
}

/// Writes the entries of a craft with higher numbers into the list from n on, ascending; tells where they end.
// No plainer on the part of the list from n on: it is cut anew for each craft, and the contracts speak of the whole list.
fn list_row<B: FlightBook, Q: EventQueue>(
    floor: &Floor<B, Q>,
    c: Craft,
    list: &mut [u16],
    n: usize,
) -> usize
    requires { n + length (row (hall_of B.meaning Q.holds floor.now) c.number) ≤ length list.old }
    ensures list { list.new ≡ written n (row (hall_of B.meaning Q.holds floor.now) c.number) list.old }
    ensures count { result ≡ n + length (row (hall_of B.meaning Q.holds floor.now) c.number) }
{
    let mut end = n;
    // A rule of the project: the craft table is gone over by index, ascending.
    for d in 0..64 {
        let d = Craft { number: d };
        if is_listed(floor, c, d) {
            list[end] = entry_of(c, d);
            end += 1;
        }
    }
    end
}

/// Writes the touching pairs at the list's start, ascending, and tells how many; refused where they do not fit, and nothing is written.
pub fn list_pairs<B: FlightBook, Q: EventQueue>(
    floor: &Floor<B, Q>,
    list: &mut [u16],
) -> Result<usize, Refusal>
    ensures { MatchResult result (λ n. Listed (hall_of B.meaning Q.holds floor.now) list.old list.new n) (λ e. TooShort (hall_of B.meaning Q.holds floor.now) list.old list.new × (number_of e ≡ 15)) }
{
    if list.len() < count_pairs(floor) {
        return Err(Refusal::Room);
    }
    let mut n = 0;
    // A rule of the project: the craft table is gone over by index, ascending.
    for c in 0..64 {
        n = list_row(floor, Craft { number: c }, list, n);
    }
    Ok(n)
}
