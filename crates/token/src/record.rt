use crate::Token;
use proto::Fault;
use std::alloc::Global;
use wire::{Record, Sink};

impl Record for Token {
    ghost use Rattle.std.specs.Prelude.{⊤};
    ghost use Rattle.token.specs.Token.{token_bytes};
    ghost use Rattle.token.specs.TokenLaws.{token_prefix_free};

    ghost fits = { λ _. ⊤ };

    ghost encoding = { token_bytes };

    fn put<S: Sink>(&self, sink: &mut S) -> Result<(), S::Refusal> {
        self.0.put(sink)
    }

    fn take<'b>(alloc: Global, bytes: &'b [u8]) -> Result<(Token, &'b [u8]), Fault> {
        let (digest, rest) = <[u8; 32]>::take(alloc, bytes)?;
        Ok((Token(digest), rest))
    }

    ghost prefix_free = { token_prefix_free };
}
