//! The record of a tentative state, as a member of a chain.

ghost use Rattle.std.specs.Prelude.{◌≡◌, ◌++◌, OnOk, OnErr, IfOk};
ghost use Rattle.wire.specs.Record.{Puts, Takes, Reads};
ghost use Rattle.executor.specs.Work.{TentativeView};
ghost use Rattle.executor.specs.Kept.{IsTentative, IsTentativeOver, IsTentativeOverIn};
ghost use Rattle.executor.specs.MemberRecord.{member_text, member_text_in};

use crate::base_state::Base;
use crate::kept_replies::kept_replies;
use crate::saved_member::put_member;
use crate::tentative::Tentative;
use batches::Batch;
use pages::PageSet;
use proto::Fault;
use states::{State, Version};
use std::alloc::{AllocError, Global};
use wire::{Record, Sink};

impl Tentative {
    /// What is true of every tentative state. It does nothing.
    fn is_tentative(&self)
        ensures { IsTentative self.now }
    {
        let _before = &self.before;
    }

    /// Writes its record as a member of a chain: its batch, and the state that it led to over the base.
    /// A sink that takes shared pieces gets the texts that are kept of its sessions and of the pages
    /// that are not the same; so a record in a text of pieces copies little. The only error is a failed
    /// allocation.
    pub fn put<S: Sink<Refusal = AllocError>>(
        &self,
        alloc: Global,
        sink: &mut S,
    ) -> Result<(), AllocError>
        ensures { OnOk result (Puts S.holds (member_text self.now) sink.old sink.new) }
    {
        put_member(
            alloc,
            &self.before.state,
            &self.batch,
            &self.after.state,
            &self.may_differ,
            sink,
        )
    }

    /// Appends its record as a member of a chain: its batch, and the state that it led to over the
    /// base. If an allocation fails nothing is appended.
    pub fn write(&self, out: &mut Vec<u8>) -> Result<(), AllocError>
        ensures ok { OnOk result (out.new.items ≡ out.old.items ++ member_text self.now) }
        ensures err { OnErr result (out.new.items ≡ out.old.items) }
        ensures is { IsTentative self.now }
    {
        self.is_tentative();
        let alloc = *out.allocator();
        let mut text = Vec::new(alloc);
        self.put(alloc, &mut text)?;
        out.extend_from_slice(text.as_slice())?;
        Ok(())
    }

    /// The tentative state over the base whose record in this version is a prefix of the bytes, and the
    /// bytes after it. Its pages are shared with the base if they are the same.
    ///
    /// `BadRecord`: no tentative state over this base has such a record. So its batch is of the number
    /// after the base's, it is over the base's token, its batch digest, moment and token are the
    /// computed ones, and its sessions keep each request of its batch that ran; the replies are those
    /// that they keep. `NoMemory` is the only other error.
    pub fn take<'b>(
        alloc: Global,
        version: Version,
        base: &Base,
        bytes: &'b [u8],
    ) -> Result<(Tentative, &'b [u8]), Fault>
        ensures { Takes (IsTentativeOverIn version base.now.state) (member_text_in version) bytes.now result }
    {
        let (batch, rest) = Batch::take(alloc, bytes)?;
        if batch.n != base.number() + 1 {
            return Err(Fault::BadRecord);
        }
        let (after, rest) = State::take_after(alloc, version, &base.state, &batch, rest)?;
        let before = base.share()?;
        let requests = batch.requests.as_slice();
        let replies = kept_replies(alloc, before.state.sessions(), requests, after.sessions())?;
        let tentative = Tentative {
            before,
            batch,
            after: Base { state: after },
            replies,
            may_differ: PageSet::all(),
        };
        Ok((tentative, rest))
    }

    /// The tentative state over the base whose record, as `put` writes it, all of the bytes are: see
    /// `take`. `BadRecord`: no tentative state over this base has this record. `NoMemory` is the only other error.
    pub fn restore(alloc: Global, base: &Base, bytes: &[u8]) -> Result<Tentative, Fault>
        ensures reads { Reads (IsTentativeOver base.now.state) member_text bytes.now result }
        ensures again { IfOk result (λ found. (tentative : TentativeView) → IsTentativeOver base.now.state tentative
            → bytes.now ≡ member_text tentative → found ≡ tentative) }
    {
        let (tentative, rest) = Tentative::take(alloc, Version::Second, base, bytes)?;
        if rest.is_empty() {
            Ok(tentative)
        } else {
            tentative.undo();
            Err(Fault::BadRecord)
        }
    }
}
