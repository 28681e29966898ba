//! What is stored of a proxy.

ghost use Rattle.std.specs.Prelude.{◌≡◌};
ghost use Rattle.wire.specs.Record.{Always};
ghost use Rattle.process_text.specs.Rows.{outstanding_text, proxy_row_text};
ghost use Rattle.process_text.specs.RowLaws.{outstanding_prefix_free, proxy_row_prefix_free};

use crate::flag::TruthByte;
use proto::Fault;
use sessions::Request;
use std::alloc::Global;
use wire::{Record, Sink};

/// A request that was not answered yet, and whether its reply is left out of what the client is given.
pub struct StoredRequest {
    pub request: Request,
    pub quiet: bool,
}

impl Drop for StoredRequest {
    fn drop(self) {
        let StoredRequest {
            request: _,
            quiet: _,
        } = self;
    }
}

/// What is stored of a proxy: its number as a client, the number of its last request, and that request, if it was not
/// answered yet.
pub struct ProxyRow {
    pub client: u16,
    pub last: u64,
    pub asked: Option<StoredRequest>,
}

impl Drop for ProxyRow {
    fn drop(self) {
        let ProxyRow {
            client: _,
            last: _,
            asked: _,
        } = self;
    }
}

impl Record for StoredRequest {
    ghost fits = { Always };

    ghost encoding = { outstanding_text };

    fn put<S: Sink>(&self, sink: &mut S) -> Result<(), S::Refusal> {
        let quiet = TruthByte { is_set: self.quiet };
        self.request.put(sink)?;
        quiet.put(sink)
    }

    fn take<'b>(alloc: Global, bytes: &'b [u8]) -> Result<(StoredRequest, &'b [u8]), Fault> {
        let ((request, quiet), rest) = <(Request, TruthByte)>::take(alloc, bytes)?;
        let asked = StoredRequest {
            request,
            quiet: quiet.is_set,
        };
        Ok((asked, rest))
    }

    ghost prefix_free = { outstanding_prefix_free };
}

impl Record for ProxyRow {
    ghost fits = { Always };

    ghost encoding = { proxy_row_text };

    fn put<S: Sink>(&self, sink: &mut S) -> Result<(), S::Refusal> {
        self.client.put(sink)?;
        self.last.put(sink)?;
        self.asked.put(sink)
    }

    fn take<'b>(alloc: Global, bytes: &'b [u8]) -> Result<(ProxyRow, &'b [u8]), Fault> {
        let (((client, last), asked), rest) = <((u16, u64), Option<StoredRequest>)>::take(
            alloc, bytes,
        )?;
        let row = ProxyRow {
            client,
            last,
            asked,
        };
        Ok((row, rest))
    }

    ghost prefix_free = { proxy_row_prefix_free };
}
