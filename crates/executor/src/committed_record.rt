//! The record of a committed state.

ghost use Rattle.std.specs.Prelude.{◌≡◌, ◌++◌, OnOk, OnErr, IfOk};
ghost use Rattle.wire.specs.Record.{Puts, Takes, Reads};
ghost use Rattle.states.specs.State.{StateView, IsState};
ghost use Rattle.states.specs.StateRecord.{state_text};
ghost use Rattle.states.specs.Version.{state_text_in};
ghost use Rattle.states.specs.declared.version.Version.TheVariants.{Second};
ghost use Rattle.executor.specs.Kept.{IsQuietIn};

use crate::tentative::Committed;
use proto::Fault;
use states::{State, Version};
use std::alloc::{AllocError, Global};
use wire::Sink;

impl Committed {
    /// Writes the record of the state, without the replies. A sink that takes shared pieces gets the
    /// texts that are kept of its pages and its sessions; so a record in a text of pieces copies little.
    /// The sink may refuse it, as when an allocation fails.
    pub fn put<S: Sink>(&self, sink: &mut S) -> Result<(), S::Refusal>
        ensures { OnOk result (Puts S.holds (state_text self.now.state) sink.old sink.new) }
    {
        self.base.state.put(sink)
    }

    /// Appends the record of the state, without the replies. If an allocation fails nothing is
    /// appended.
    pub fn write(&self, out: &mut Vec<u8>) -> Result<(), AllocError>
        ensures ok { OnOk result (out.new.items ≡ out.old.items ++ state_text self.now.state) }
        ensures err { OnErr result (out.new.items ≡ out.old.items) }
        ensures is { IsState self.now.state }
    {
        self.base.state.is_state();
        let mut text = Vec::new(*out.allocator());
        self.put(&mut text)?;
        out.extend_from_slice(text.as_slice())?;
        Ok(())
    }

    /// The committed state whose record in this version is a prefix of the bytes, with its token
    /// recomputed, and the bytes after it. No reply comes with it. `BadRecord`: no record of a state is
    /// one. `NoMemory` is the only other error.
    pub fn take(alloc: Global, version: Version, bytes: &[u8]) -> Result<(Committed, &[u8]), Fault>
        ensures { Takes (IsQuietIn version) (λ c. state_text_in version c.state) bytes.now result }
    {
        let (state, rest) = State::take(alloc, version, bytes)?;
        Ok((Committed::of_state(alloc, state), rest))
    }

    /// The committed state whose record, as `put` writes it, all of the bytes are: see `take`. `BadRecord`: they are the
    /// record of no state. `NoMemory` is the only other error.
    pub fn restore(alloc: Global, bytes: &[u8]) -> Result<Committed, Fault>
        ensures reads { Reads (IsQuietIn Second) (λ c. state_text c.state) bytes.now result }
        ensures again { IfOk result (λ committed. (state : StateView) → bytes.now ≡ state_text state → committed.state ≡ state) }
    {
        let (committed, rest) = Committed::take(alloc, Version::Second, bytes)?;
        if rest.is_empty() {
            Ok(committed)
        } else {
            Err(Fault::BadRecord)
        }
    }
}
