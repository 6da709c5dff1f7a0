//! The rules as definitions (in specs/), with the lemmas that every proof shares (in proofs/), and theorems about them.
#![tactic(auto)]

ghost use Rattle.rules.specs.Laws.{AllLeastTerms, TestsRight, TimesOrdered, StampsOrdered};

/// Least terms are computed rightly, the tests of order decide it, and times and moments are totally ordered: over all fractions.
pub fn times_stand() -> u8
    ensures least { AllLeastTerms }
    ensures tests { TestsRight }
    ensures times { TimesOrdered }
    ensures stamps { StampsOrdered }
{
    0
}
