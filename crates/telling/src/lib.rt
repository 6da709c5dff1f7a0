//! What the hall tells is so: touching and reports, over every lawful book and every list of calls; and with the accounts
//! and the certificates, the whole of what the hall promises.
#![tactic(auto)]

ghost use Rattle.model.specs.Statement.{Promise};

/// The hall's promise: over every lawful book of scale at most 8 and every list of calls, its accounts, when its certificates fail,
/// which boxes it tells to touch, and which meetings and partings it reports.
pub fn promise_stands() -> u8
    ensures { Promise }
{
    0
}
