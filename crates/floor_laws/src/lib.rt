//! How moves of the hall write their lines one after another: definitions that the floor's contracts cite, and their laws.
#![tactic(auto)]

ghost use Rattle.floor_laws.specs.Writing.{MovesCompose};

/// One move after another writes the lines of both, each where the one before ended.
pub fn moves_compose() -> u8
    ensures { MovesCompose }
{
    0
}
