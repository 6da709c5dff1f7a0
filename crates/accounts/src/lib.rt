//! The accounts of the hall, over every list of calls; the lines and numbers that each move takes at most; and that runs end.
#![tactic(auto)]

ghost use Rattle.accounts.specs.Bounds.{ChangeWithin, EnterWithin, FireWithin, LeaveWithin};
ghost use Rattle.accounts.specs.Laws.{AccountsHold, HistoriesAgree, RunsEnd};

/// Over every book and every list of calls: the numbers granted, their lines, their fates, and the slots and the queue that hold them.
pub fn accounts_stand() -> u8
    ensures { AccountsHold }
{
    0
}

/// Over every book and every list of calls: the clock, the book and the boxes that a history tells are those of the state.
pub fn histories_stand() -> u8
    ensures { HistoriesAgree }
{
    0
}

/// The lines that a move writes, and the numbers that it grants, at most.
pub fn bounds_stand() -> u8
    ensures entering { EnterWithin }
    ensures leaving { LeaveWithin }
    ensures changing { ChangeWithin }
    ensures firing { FireWithin }
{
    0
}

/// A run ends with 0 only where nothing is due, goes on as the run from after its step, and writes no more than fits.
pub fn runs_stand() -> u8
    ensures { RunsEnd }
{
    0
}
