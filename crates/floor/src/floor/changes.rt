//! Filings and rides: the followers leave, the book changes, and they enter again.
ghost use Rattle.std.specs.Prelude.{◌≡◌, ◌<◌, is_some};
ghost use Rattle.times.specs.Of.{moment_of};
ghost use Rattle.plans.specs.Of.{plan_of};
ghost use Rattle.books.specs.Told.{filing, seating};
ghost use Rattle.model.specs.Moves.{enter, leave, change};
ghost use Rattle.tables.specs.Crafts.{record_in};
ghost use Rattle.floor_laws.specs.Writing.{where_so};
ghost use Rattle.floor_laws.proofs.Loops.{prefix};
ghost use Rattle.floor.specs.Of.{hall_of};
ghost use Rattle.floor.specs.Slips.{FitsIn, Moved};
ghost use Rattle.floor.specs.Saved.{follower_of, Saved, is_saved, saved_box, box_in};

use crate::floor::Floor;
use books::FlightBook;
use fleet::Craft;
use plans::Plan;
use queues::EventQueue;
use slots::Slip;
use tables::CraftRecord;
use times::Moment;

// Leaving and entering of all saved craft stay two loops, and filing and riding two functions: as one over a trait they are no plainer, since each
// pair differs in one call, and the trait would take a type, its move and its laws for each side.
impl<B: FlightBook, Q: EventQueue> Floor<B, Q> {
    /// The record of d, where d is entered and follows c.
    fn follower(&self, c: Craft, d: Craft) -> Option<CraftRecord>
        ensures { record_in result ≡ follower_of c.number (hall_of B.meaning Q.holds self.now) d.number }
    {
        match self.book.follows(d.number, c.number) {
            Ok(true) => self.tables.craft_at(d),
            _ => None,
        }
    }

    /// The records of the entered craft that follow c, by craft.
    fn followers(&self, c: Craft) -> [Option<CraftRecord>; 64]
        ensures { Saved c.number (hall_of B.meaning Q.holds self.now) 64 result }
    {
        let mut saved = [None; 64];
        // A rule of the project: the craft table is gone over by index, ascending.
        for d in 0..64u8 {
            saved[d as usize] = self.follower(c, Craft { number: d });
        }
        saved
    }

    /// A craft leaves, where it is to.
    fn leave_if(&mut self, so: bool, d: Craft, slip: &mut Slip)
        requires { FitsIn (where_so so (leave d.number)) (hall_of B.meaning Q.holds self.old) slip.old }
        ensures { Moved (where_so so (leave d.number)) (hall_of B.meaning Q.holds self.old) (hall_of B.meaning Q.holds self.new) slip.old slip.new }
    {
        if so {
            self.leave(d, slip);
        }
    }

    /// The craft whose records are saved leave, ascending.
    fn leave_all(&mut self, saved: &[Option<CraftRecord>; 64], slip: &mut Slip)
        requires { FitsIn (prefix leave (is_saved saved.now) 64) (hall_of B.meaning Q.holds self.old) slip.old }
        ensures { Moved (prefix leave (is_saved saved.now) 64) (hall_of B.meaning Q.holds self.old) (hall_of B.meaning Q.holds self.new) slip.old slip.new }
    {
        // A rule of the project: the craft table is gone over by index, ascending.
        for d in 0..64u8 {
            self.leave_if(saved[d as usize].is_some(), Craft { number: d }, slip);
        }
    }

    /// A craft enters again with the box of its record, where that is saved.
    fn enter_if(&mut self, kept: Option<CraftRecord>, d: Craft, k: Moment, slip: &mut Slip)
        requires { FitsIn (where_so (is_some kept) (enter d.number (box_in kept) (moment_of k))) (hall_of B.meaning Q.holds self.old) slip.old }
        ensures { Moved (where_so (is_some kept) (enter d.number (box_in kept) (moment_of k))) (hall_of B.meaning Q.holds self.old) (hall_of B.meaning Q.holds self.new) slip.old slip.new }
    {
        if let Some(craft) = kept {
            self.enter(d, craft.sizes(), k, slip);
        }
    }

    /// The craft whose records are saved enter again, ascending.
    fn enter_all(&mut self, saved: &[Option<CraftRecord>; 64], k: Moment, slip: &mut Slip)
        requires { FitsIn (prefix (λ d. enter d (saved_box saved.now d) (moment_of k)) (is_saved saved.now) 64) (hall_of B.meaning Q.holds self.old) slip.old }
        ensures { Moved (prefix (λ d. enter d (saved_box saved.now d) (moment_of k)) (is_saved saved.now) 64) (hall_of B.meaning Q.holds self.old) (hall_of B.meaning Q.holds self.new) slip.old slip.new }
    {
        // A rule of the project: the craft table is gone over by index, ascending.
        for d in 0..64u8 {
            self.enter_if(saved[d as usize], Craft { number: d }, k, slip);
        }
    }

    /// A plan is filed: the entered craft that follow the one filed leave, the book changes, and they enter again.
    pub fn file(&mut self, c: Craft, plan: Plan, k: Moment, slip: &mut Slip)
        requires { FitsIn (change (filing c.number (plan_of plan)) (moment_of k)) (hall_of B.meaning Q.holds self.old) slip.old }
        ensures { Moved (change (filing c.number (plan_of plan)) (moment_of k)) (hall_of B.meaning Q.holds self.old) (hall_of B.meaning Q.holds self.new) slip.old slip.new }
    {
        let saved = self.followers(c);
        self.leave_all(&saved, slip);
        let _ = self.book.file(c.number, plan);
        self.enter_all(&saved, k, slip);
    }

    /// A seat is set or emptied: the entered craft that follow the one seated leave, the book changes, and they enter again.
    pub fn ride(&mut self, c: Craft, level: u8, carrier: Option<u8>, k: Moment, slip: &mut Slip)
        requires { FitsIn (change (seating c.number level carrier) (moment_of k)) (hall_of B.meaning Q.holds self.old) slip.old }
        ensures { Moved (change (seating c.number level carrier) (moment_of k)) (hall_of B.meaning Q.holds self.old) (hall_of B.meaning Q.holds self.new) slip.old slip.new }
    {
        let saved = self.followers(c);
        self.leave_all(&saved, slip);
        let _ = self.book.ride(c.number, level, carrier);
        self.enter_all(&saved, k, slip);
    }
}
