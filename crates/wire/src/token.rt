use crate::front::take_mark;
use crate::record::Record;
use crate::sink::Sink;
use proto::Fault;
use std::alloc::Global;

/// What an inner node of the tree of page digests is the digest of.
#[derive(Clone, Copy, PartialEq, Eq)]
pub struct InnerText {
    pub left: [u8; 32],
    pub right: [u8; 32],
}

/// What a state's token is the digest of.
#[derive(Clone, Copy, PartialEq, Eq)]
pub struct TokenText {
    /// The token of the state before.
    pub previous: [u8; 32],
    pub n: u64,
    pub epoch: u64,
    pub moment: u32,
    /// The digest of the batch that led here.
    pub batch: [u8; 32],
    /// The root of the tree of page digests.
    pub root: [u8; 32],
    /// The digest of the sessions.
    pub sessions: [u8; 32],
}

impl Record for InnerText {
    ghost use Rattle.std.specs.Prelude.{⊤};
    ghost use Rattle.wire.specs.Token.{inner_text};
    ghost use Rattle.wire.specs.TokenLaws.{inner_prefix_free};

    ghost fits = { λ _. ⊤ };

    ghost encoding = { inner_text };

    #[tactic(auto, unfolding(crate::specs::Token::inner_text))]
    fn put<S: Sink>(&self, sink: &mut S) -> Result<(), S::Refusal> {
        sink.put(&[1u8])?;
        self.left.put(sink)?;
        self.right.put(sink)
    }

    #[tactic(auto, unfolding(crate::specs::Token::inner_text))]
    fn take<'b>(alloc: Global, bytes: &'b [u8]) -> Result<(InnerText, &'b [u8]), Fault> {
        let rest = take_mark(bytes, 1)?;
        let (row, rest) = <([u8; 32], [u8; 32])>::take(alloc, rest)?;
        let (left, right) = row;
        Ok((InnerText { left, right }, rest))
    }

    ghost prefix_free = { inner_prefix_free };
}

impl TokenText {
    ghost use Rattle.std.specs.Prelude.{◌++◌, OnOk};
    ghost use Rattle.std.specs.Int.{w32, w64};
    ghost use Rattle.wire.specs.Record.{Puts};
    ghost use Rattle.wire.specs.Number.{num, fixed};

    /// Writes where in the run the state stands.
    fn put_place<S: Sink>(&self, sink: &mut S) -> Result<(), S::Refusal>
        ensures { OnOk result (Puts S.holds
            (fixed 32 self.now.previous ++ num w64 self.now.n ++ num w64 self.now.epoch ++ num w32 self.now.moment)
            sink.old sink.new) }
    {
        self.previous.put(sink)?;
        self.n.put(sink)?;
        self.epoch.put(sink)?;
        self.moment.put(sink)
    }
}

type Digest = [u8; 32];

impl Record for TokenText {
    ghost use Rattle.std.specs.Prelude.{⊤};
    ghost use Rattle.wire.specs.Token.{token_text};
    ghost use Rattle.wire.specs.TokenLaws.{token_text_free};

    ghost fits = { λ _. ⊤ };

    ghost encoding = { token_text };

    #[tactic(auto, unfolding(crate::specs::Token::token_text))]
    fn put<S: Sink>(&self, sink: &mut S) -> Result<(), S::Refusal> {
        sink.put(&[2u8])?;
        self.put_place(sink)?;
        self.batch.put(sink)?;
        self.root.put(sink)?;
        self.sessions.put(sink)
    }

    #[tactic(auto, unfolding(crate::specs::Token::token_text))]
    fn take<'b>(alloc: Global, bytes: &'b [u8]) -> Result<(TokenText, &'b [u8]), Fault> {
        let rest = take_mark(bytes, 2)?;
        let (row, rest) = <((((((Digest, u64), u64), u32), Digest), Digest), Digest)>::take(
            alloc, rest,
        )?;
        let ((((((previous, n), epoch), moment), batch), root), sessions) = row;
        let text = TokenText {
            previous,
            n,
            epoch,
            moment,
            batch,
            root,
            sessions,
        };
        Ok((text, rest))
    }

    ghost prefix_free = { token_text_free };
}
