ghost use Rattle.std.specs.Prelude.{◌≡◌};
ghost use Rattle.wire.specs.Record.{Always};
ghost use Rattle.wire.specs.Command.{request_text};
ghost use Rattle.wire.specs.CommandLaws.{request_prefix_free};

use crate::record::Record;
use crate::sink::Sink;
use proto::{Command, Fault};
use sessions::Request;
use std::alloc::Global;

impl Record for Request {
    ghost fits = { Always };

    ghost encoding = { request_text };

    fn put<S: Sink>(&self, sink: &mut S) -> Result<(), S::Refusal> {
        self.client.put(sink)?;
        self.number.put(sink)?;
        self.command.put(sink)
    }

    fn take<'b>(alloc: Global, bytes: &'b [u8]) -> Result<(Request, &'b [u8]), Fault> {
        let (row, rest) = <((u16, u64), Command)>::take(alloc, bytes)?;
        let ((client, number), command) = row;
        if client == 0 {
            return Err(Fault::BadRecord);
        }
        if number == 0 {
            return Err(Fault::BadRecord);
        }
        let request = Request {
            client,
            number,
            command,
        };
        Ok((request, rest))
    }

    ghost prefix_free = { request_prefix_free };
}
