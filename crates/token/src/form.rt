use proto::Fault;
use std::alloc::Global;
use wire::{Record, Sink};

/// How many bytes the data of an item has at most in a state of the old form.
pub const OLD_BLOCK_BYTES: usize = 65536;

/// How the digests in a state's token are computed.
///
/// The items of every state are on `PAGES` pages. A state that was read from a record of version 1
/// keeps the token that it had there: its root is over 64 pages, each of them four of today's.
#[derive(Clone, Copy, Debug, PartialEq, Eq)]
pub enum Form {
    /// 64 pages: a state of a record of version 1. It is 1 in a record.
    Old,
    /// Over the texts of `PAGES` pages: the first state, and what a batch makes of few items. It is 2 in a
    /// record.
    Current,
    /// Over the Merkle trees of `PAGES` pages, and with the digests of long replies: what a batch makes of
    /// many items. It is 3 in a record.
    Tree,
}

impl Record for Form {
    ghost use Rattle.wire.specs.Record.{Always};
    ghost use Rattle.token.specs.Form.{form_text};
    ghost use Rattle.token.specs.FormLaws.{form_prefix_free};

    ghost fits = { Always };

    ghost encoding = { form_text };

    #[tactic(auto, unfolding(crate::specs::Form::form_text))]
    fn put<S: Sink>(&self, sink: &mut S) -> Result<(), S::Refusal> {
        match self {
            Form::Old => sink.put(&[1u8]),
            Form::Current => sink.put(&[2u8]),
            Form::Tree => sink.put(&[3u8]),
        }
    }

    #[tactic(auto, unfolding(crate::specs::Form::form_text))]
    fn take<'b>(_alloc: Global, bytes: &'b [u8]) -> Result<(Form, &'b [u8]), Fault> {
        match bytes {
            [1, rest @ ..] => Ok((Form::Old, rest)),
            [2, rest @ ..] => Ok((Form::Current, rest)),
            [3, rest @ ..] => Ok((Form::Tree, rest)),
            _ => Err(Fault::BadRecord),
        }
    }

    ghost prefix_free = { form_prefix_free };
}
