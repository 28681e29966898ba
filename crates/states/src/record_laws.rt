//! What the records of states identify. The function does nothing: what it says is its contract.

ghost use Rattle.wire.specs.Record.{IsPrefixFree, OneValue};
ghost use Rattle.states.specs.StateRecord.{state_text};

/// A record identifies its state, and no record is a prefix of another.
pub fn states_are_told_apart()
    ensures one { OneValue state_text }
    ensures whole { IsPrefixFree state_text }
{}
