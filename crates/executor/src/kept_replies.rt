//! The replies of a batch, out of the sessions that keep them.

ghost use Rattle.std.specs.Prelude.{◌≡◌, ◌≤◌, ◌^◌, length, IfOk, IfErr};
ghost use Rattle.std.specs.FinMap as map;
ghost use Rattle.wire.specs.Record.{Refused};
ghost use Rattle.executor.specs.Fresh.{runners_among};
ghost use Rattle.executor.specs.Kept.{IsKeptReply, AreKept, LackOne};

use crate::answered::Answered;
use crate::begin::runs;
use proto::Fault;
use sessions::{Request, Sessions};
use std::alloc::Global;

/// The reply that is kept for the request, if it is of the request's number.
fn kept_reply(sessions: &Sessions, place: u32, request: &Request) -> Result<Answered, Fault>
    ensures { IsKeptReply sessions.now (place, request.now) result }
{
    match sessions.kept(request.client) {
        Some((number, reply)) if number == request.number => Ok(Answered {
            place,
            client: request.client,
            number,
            reply: reply.clone()?,
        }),
        _ => Err(Fault::BadRecord),
    }
}

/// The replies that the sessions keep for those of the requests that ran after `before`.
/// `BadRecord`: they do not keep one for each.
pub fn kept_replies(
    alloc: Global,
    before: &Sessions,
    requests: &[Request],
    sessions: &Sessions,
) -> Result<Vec<Answered>, Fault>
    requires { length requests.now ≤ 2 ^ 32 }
    ensures kept { IfOk result (λ replies. AreKept sessions.now (runners_among before.now requests.now) replies.items) }
    ensures err { IfErr result (λ e. Refused e (LackOne sessions.now (runners_among before.now requests.now))) }
{
    let mut replies = Vec::new(alloc);
    for (place, request) in requests.iter().enumerate() {
        if runs(before, &requests[..place], request) {
            replies.push(kept_reply(sessions, place as u32, request)?)?;
        }
    }
    Ok(replies)
}
