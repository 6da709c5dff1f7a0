//! Closed histories of calls, computed from the definitions of the model.
#![tactic(auto)]

ghost use Rattle.model_examples.specs.Examples.{CutTold, FormationTold, RefusalsTold, ThreeTold};

/// What each of these histories is told: three craft of which one turns, a formation that rides, runs that are cut short, and refusals in their order.
pub fn examples_stand() -> u8
    ensures three { ThreeTold }
    ensures formation { FormationTold }
    ensures cut { CutTold }
    ensures refusals { RefusalsTold }
{
    0
}
