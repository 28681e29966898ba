ghost use Rattle.std.specs.Prelude.{◌≡◌, ⊤};
ghost use Rattle.decrees.specs.Record.{decree_text, standing_text, start_text};
ghost use Rattle.decrees.specs.RecordProofs.{decree_prefix_free, standing_prefix_free, start_prefix_free};

use crate::decree::Decree;
use crate::standing::Standing;
use crate::start::Start;
use proto::Fault;
use std::alloc::Global;
use token::Token;
use wire::{Record, Sink};

/// A mark, and of a Commit the number and the token.
impl Record for Decree {
    ghost fits = { λ _. ⊤ };

    ghost encoding = { decree_text };

    fn put<S: Sink>(&self, sink: &mut S) -> Result<(), S::Refusal> {
        match self {
            Decree::Rollback => sink.put(&[0u8]),
            Decree::Commit { n, token } => {
                sink.put(&[1u8])?;
                n.put(sink)?;
                token.0.put(sink)
            }
        }
    }

    fn take<'b>(alloc: Global, bytes: &'b [u8]) -> Result<(Decree, &'b [u8]), Fault> {
        let (commit, rest) = <Option<(u64, [u8; 32])> as Record>::take(alloc, bytes)?;
        match commit {
            None => Ok((Decree::Rollback, rest)),
            Some(commit) => {
                let token = Token(commit.1);
                Ok((Decree::Commit { n: commit.0, token }, rest))
            }
        }
    }

    ghost prefix_free = { decree_prefix_free };
}

/// Number, token, epoch and its first number.
impl Record for Standing {
    ghost fits = { λ _. ⊤ };

    ghost encoding = { standing_text };

    fn put<S: Sink>(&self, sink: &mut S) -> Result<(), S::Refusal> {
        self.n.put(sink)?;
        self.token.put(sink)?;
        self.epoch.put(sink)?;
        self.start.put(sink)
    }

    fn take<'b>(alloc: Global, bytes: &'b [u8]) -> Result<(Standing, &'b [u8]), Fault> {
        let ((((n, token), epoch), start), rest) = <(((u64, Token), u64), u64) as Record>::take(
            alloc, bytes,
        )?;
        let standing = Standing {
            n,
            token,
            epoch,
            start,
        };
        Ok((standing, rest))
    }

    ghost prefix_free = { standing_prefix_free };
}

/// The place, and what stands there.
impl Record for Start {
    ghost fits = { λ _. ⊤ };

    ghost encoding = { start_text };

    fn put<S: Sink>(&self, sink: &mut S) -> Result<(), S::Refusal> {
        self.place.put(sink)?;
        self.standing.put(sink)
    }

    fn take<'b>(alloc: Global, bytes: &'b [u8]) -> Result<(Start, &'b [u8]), Fault> {
        let ((place, standing), rest) = <(u64, Standing) as Record>::take(alloc, bytes)?;
        Ok((Start { place, standing }, rest))
    }

    ghost prefix_free = { start_prefix_free };
}
