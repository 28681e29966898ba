//! The replies to the requests that ran, and the sessions that keep them.

ghost use Rattle.std.specs.Prelude.{◌≡◌, ◌++◌, Some, IfOk, OnOk, length, slice_get, All};
ghost use Rattle.item_steps.specs.Steps.{steps};
ghost use Rattle.sessions.specs.declared.request.Request.{Request};
ghost use Rattle.executor.specs.Round.{kept_after};
ghost use Rattle.executor.specs.Work.{replied, replied_at, replies_to};

use crate::answered::Answered;
use crate::batch_request::BatchRequest;
use item_steps::reply_of;
use sessions::Request;
use std::alloc::{AllocError, Global};
use token::HashedSessions;

/// The reply to a request all of whose steps were made.
fn answer(alloc: Global, request: &Request, running: &BatchRequest) -> Result<Answered, AllocError>
    requires { length running.now.answers ≡ length (steps request.now.command) }
    ensures { IfOk result (λ answered. answered ≡ replied (running.now.place, request.now) running.now) }
{
    Ok(Answered {
        place: running.place(),
        client: request.client,
        number: request.number,
        reply: reply_of(alloc, &request.command, running.answers())?,
    })
}

/// Adds the reply to a request that ran, and keeps it.
fn add_answer(
    alloc: Global,
    requests: &[Request],
    running: &BatchRequest,
    sessions: &mut HashedSessions,
    replies: &mut Vec<Answered>,
) -> Result<(), AllocError>
    requires { (request : Request) → slice_get requests.now running.now.place ≡ Some request
        → length running.now.answers ≡ length (steps request.command) }
    ensures replies { OnOk result (replies.new.items ≡ replies.old.items ++ replied_at requests.now running.now) }
    ensures kept { OnOk result (sessions.new ≡ kept_after sessions.old (replied_at requests.now running.now)) }
{
    match requests.get(running.place() as usize) {
        Some(request) => {
            let answered = answer(alloc, request, running)?;
            sessions.keep(request, answered.reply.clone()?)?;
            replies.push(answered)?;
            Ok(())
        }
        None => Ok(()),
    }
}

/// The replies to all requests that ran, by place; the sessions keep them from now on.
#[tactic(auto, using(crate::proofs::KeptLemmas::kept_again))]
pub fn answer_all(
    alloc: Global,
    requests: &[Request],
    running: &[BatchRequest],
    sessions: &mut HashedSessions,
) -> Result<Vec<Answered>, AllocError>
    requires { All (λ r. (request : Request) → slice_get requests.now r.place ≡ Some request
        → length r.answers ≡ length (steps request.command)) running.now }
    ensures replies { IfOk result (λ replies. replies.items ≡ replies_to requests.now running.now) }
    ensures kept { OnOk result (sessions.new ≡ kept_after sessions.old (replies_to requests.now running.now)) }
{
    let mut replies = Vec::with_capacity(alloc, running.len())?;
    for r in running {
        add_answer(alloc, requests, r, sessions, &mut replies)?;
    }
    Ok(replies)
}
