//! What a state came from, as records say it.

ghost use Rattle.std.specs.Prelude.{◌≡◌, ◌++◌, OnOk, ⊤};
ghost use Rattle.std.specs.Int.{w64};
ghost use Rattle.wire.specs.Number.{num, fixed};
ghost use Rattle.wire.specs.Record.{Puts};
ghost use Rattle.token.specs.Token.{token_bytes};
ghost use Rattle.states.specs.Origin.{origin_text, told_text};
ghost use Rattle.states.specs.HeadProofs.{origin_prefix_free};

use proto::Fault;
use std::alloc::Global;
use token::{Form, Token};
use wire::{Record, Sink};

/// All of a state but its token, its sessions and its items.
#[derive(Clone, Copy, PartialEq, Eq)]
pub struct Origin {
    /// How the digests in its token are computed.
    pub form: Form,
    /// How many batches led to it.
    pub number: u64,
    /// The token of the state before it.
    pub previous: Token,
    /// The epoch of the batch that led to it.
    pub epoch: u64,
    /// The digest of that batch.
    pub batch: [u8; 32],
    /// Its moment, in seconds.
    pub moment: u32,
}

type Digest = [u8; 32];

/// All of an origin but its form, in the order of its record.
pub(crate) type Told = ((((u64, Token), u64), Digest), u32);

impl Origin {
    /// The origin of this form that is told so.
    pub(crate) fn of_told(form: Form, told: Told) -> Origin
        ensures { result ≡ record {
          form = form;
          number = told.0.0.0.0;
          previous = told.0.0.0.1;
          epoch = told.0.0.1;
          batch = told.0.1;
          moment = told.1;
        } }
    {
        let ((((number, previous), epoch), batch), moment) = told;
        Origin {
            form,
            number,
            previous,
            epoch,
            batch,
            moment,
        }
    }

    /// Writes its number, and what led to the state.
    fn put_cause<S: Sink>(&self, sink: &mut S) -> Result<(), S::Refusal>
        ensures { OnOk result (Puts S.holds
            (num w64 self.now.number ++ token_bytes self.now.previous ++ num w64 self.now.epoch ++ fixed 32 self.now.batch)
            sink.old sink.new) }
    {
        self.number.put(sink)?;
        self.previous.put(sink)?;
        self.epoch.put(sink)?;
        self.batch.put(sink)
    }

    /// Writes all but its form.
    pub(crate) fn put_told<S: Sink>(&self, sink: &mut S) -> Result<(), S::Refusal>
        ensures { OnOk result (Puts S.holds (told_text self.now) sink.old sink.new) }
    {
        self.put_cause(sink)?;
        self.moment.put(sink)
    }
}

impl Record for Origin {
    ghost fits = { λ _. ⊤ };

    ghost encoding = { origin_text };

    fn put<S: Sink>(&self, sink: &mut S) -> Result<(), S::Refusal> {
        self.form.put(sink)?;
        self.put_told(sink)
    }

    fn take<'b>(alloc: Global, bytes: &'b [u8]) -> Result<(Origin, &'b [u8]), Fault> {
        let ((form, told), rest) = <(Form, Told)>::take(alloc, bytes)?;
        Ok((Origin::of_told(form, told), rest))
    }

    ghost prefix_free = { origin_prefix_free };
}
