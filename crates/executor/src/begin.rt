//! The requests of a batch that run, before their first step.

ghost use Rattle.std.specs.Prelude.{◌≡◌, ◌==◌, ◌≤◌, ◌<◌, ◌^◌, [], true, false, ◌++◌, IfOk, OnOk, length, take, map};
ghost use Rattle.std.specs.List.{list_any};
ghost use Rattle.item_steps.specs.Steps.{steps};
ghost use Rattle.mixer.specs.Groups.{numbers_of};
ghost use Rattle.states.specs.State.{StateView};
ghost use Rattle.executor.specs.Fresh.{runs as runs_after, runner_at, runners_among};
ghost use Rattle.executor.specs.Round.{group_in};
ghost use Rattle.executor.specs.Work.{all_begun, begun_in};
ghost use Rattle.executor.specs.BatchRequest.{HaveFewSteps};

use crate::batch_request::BatchRequest;
use batches::Batch;
use item_steps::{Steps, steps_of};
use mixer::group_numbers;
use sessions::{Request, Sessions};
use std::alloc::{AllocError, Global};

/// Whether one of the requests is of the client.
fn has_client(requests: &[Request], client: u16) -> bool
    ensures { result ≡ list_any (λ e. e.client == client) requests.now }
{
    requests.iter().any(|request| request.client == client)
}

/// Whether the request runs, after the earlier ones of its batch.
pub fn runs(sessions: &Sessions, earlier: &[Request], request: &Request) -> bool
    ensures { result ≡ runs_after sessions.now earlier.now request.now }
{
    sessions.fresh(request) && !has_client(earlier, request.client)
}

/// The groups of the mixer; an ordered batch needs none.
fn numbers_if(alloc: Global, requests: &[Request], ordered: bool) -> Result<Vec<usize>, AllocError>
    ensures { IfOk result (λ numbers. ordered ≡ false → numbers.items ≡ numbers_of requests.now) }
{
    if ordered {
        return Ok(Vec::new(alloc));
    }
    group_numbers(alloc, requests)
}

/// The group of the request at the place: by itself in an ordered batch.
fn group_at(ordered: bool, numbers: &[usize], place: usize) -> usize
    ensures { result ≡ group_in ordered numbers.now place }
{
    if ordered {
        return place;
    }
    match numbers.get(place) {
        Some(number) => *number,
        None => 0,
    }
}

/// Adds the request, if it runs after the earlier ones of its batch.
#[tactic(auto, using(crate::proofs::TaskLemmas::few_push))]
fn add_running(
    alloc: Global,
    sessions: &Sessions,
    earlier: &[Request],
    request: &Request,
    ordered: bool,
    numbers: &[usize],
    running: &mut Vec<BatchRequest>,
) -> Result<(), AllocError>
    requires { length earlier.now < 2 ^ 32 }
    ensures begun { OnOk result (running.new.items
        ≡ running.old.items ++ map (begun_in ordered numbers.now) (runner_at sessions.now earlier.now (length earlier.now) request.now)) }
    ensures few { OnOk result (HaveFewSteps running.old.items → HaveFewSteps running.new.items) }
{
    if !runs(sessions, earlier, request) {
        return Ok(());
    }
    let place = earlier.len();
    let steps = Steps::new(steps_of(alloc, &request.command)?);
    let group = group_at(ordered, numbers, place);
    running.push(BatchRequest::new(alloc, place as u32, group, steps))?;
    Ok(())
}

fn begin_with(
    alloc: Global,
    sessions: &Sessions,
    requests: &[Request],
    ordered: bool,
    numbers: &[usize],
) -> Result<Vec<BatchRequest>, AllocError>
    requires { length requests.now ≤ 2 ^ 32 }
    ensures begun { IfOk result (λ running. running.items ≡ map (begun_in ordered numbers.now) (runners_among sessions.now requests.now)) }
    ensures few { IfOk result (λ running. HaveFewSteps running.items) }
{
    let mut running = Vec::new(alloc);
    for (place, request) in requests.iter().enumerate() {
        let earlier = &requests[..place];
        add_running(
            alloc,
            sessions,
            earlier,
            request,
            ordered,
            numbers,
            &mut running,
        )?;
    }
    Ok(running)
}

/// The requests of the batch that run over these sessions.
pub fn begin_all(
    alloc: Global,
    sessions: &Sessions,
    batch: &Batch,
    ordered: bool,
) -> Result<Vec<BatchRequest>, AllocError>
    ensures begun { IfOk result (λ running. (base : StateView) → base.sessions ≡ sessions.now
        → running.items ≡ all_begun base batch.now ordered) }
    ensures few { IfOk result (λ running. HaveFewSteps running.items) }
{
    let requests = batch.requests.as_slice();
    let numbers = numbers_if(alloc, requests, ordered)?;
    begin_with(alloc, sessions, requests, ordered, &numbers)
}
