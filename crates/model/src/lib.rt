//! The hall as values (in specs/): its state, every call with what it is refused for, what it does and tells,
//! histories of calls, and what the hall promises of them; with the laws that need no more than the definitions.
#![tactic(auto)]

ghost use Rattle.model.specs.Laws.{QuestionsAlterNothing, RefusalsAlterNothing};
ghost use Rattle.model.specs.Show.{SmallShow};

/// The small show, in six rows, as one fact about the definitions.
pub fn show_stands() -> u8
    ensures { SmallShow }
{
    0
}

/// Laws of every call on every state: a refusal alters and tells nothing, and questions change nothing.
pub fn calls_stand() -> u8
    ensures refusals { RefusalsAlterNothing }
    ensures questions { QuestionsAlterNothing }
{
    0
}
