ghost use Rattle.std.specs.Prelude.{◌≡◌};
ghost use Rattle.wire.specs.Record.{Always};
ghost use Rattle.wire.specs.Batch.{batch_text};
ghost use Rattle.wire.specs.BatchLaws.{batch_prefix_free};

use crate::counted::{Counted, put_list};
use crate::front::take_mark;
use crate::record::Record;
use crate::sink::Sink;
use batches::{Batch, GREATEST_NUMBER, MOST_REQUESTS, Requests};
use proto::Fault;
use sessions::Request;
use std::alloc::Global;

impl Record for Batch {
    ghost fits = { Always };

    ghost encoding = { batch_text };

    #[tactic(auto, unfolding(crate::specs::Batch::batch_text))]
    fn put<S: Sink>(&self, sink: &mut S) -> Result<(), S::Refusal> {
        sink.put(&[4u8])?;
        self.epoch.put(sink)?;
        self.n.put(sink)?;
        self.moment.put(sink)?;
        put_list(self.requests.as_slice(), sink)
    }

    #[tactic(auto, unfolding(crate::specs::Batch::batch_text))]
    fn take<'b>(alloc: Global, bytes: &'b [u8]) -> Result<(Batch, &'b [u8]), Fault> {
        let rest = take_mark(bytes, 4)?;
        let (row, rest) = <(((u64, u64), u32), Counted<Request>)>::take(alloc, rest)?;
        let (((epoch, n), moment), listed) = row;
        let requests = listed.into_vec();
        if n == 0 {
            return Err(Fault::BadRecord);
        }
        if GREATEST_NUMBER < n {
            return Err(Fault::BadRecord);
        }
        if MOST_REQUESTS < requests.len() {
            return Err(Fault::BadRecord);
        }
        let batch = Batch {
            epoch,
            n,
            moment,
            requests: Requests::new(requests),
        };
        Ok((batch, rest))
    }

    ghost prefix_free = { batch_prefix_free };
}
