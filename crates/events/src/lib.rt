//! A machine of certificates: what it tells between two quiet clocks, and what its bits tell at one.
#![tactic(auto)]

ghost use Rattle.events.specs.Reports.{ReportsHold, BitsTell};
ghost use Rattle.events.specs.Changes.{ChangesRest, EmptyRests};

/// Between two quiet clocks the reports are exactly the meetings and partings, each once and in order;
/// at a quiet clock the bits tell which boxes touch; the invariant stands
/// with nobody in the air, and changes at a quiet clock keep it.
pub fn machine_stands() -> u8
    ensures reports { ReportsHold }
    ensures bits { BitsTell }
    ensures changes { ChangesRest }
    ensures empty { EmptyRests }
{
    0
}
