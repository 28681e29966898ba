//! The answer to a request.

ghost use Rattle.std.specs.Prelude.{◌≡◌, ◌<◌, IfOk, IfNone, IfSome, length};
ghost use Rattle.httparse.specs.Grammar.{MayBecomeRequest};
ghost use Rattle.status.specs.Answer.{body_text, is_served, health_of, resolved, answer_text, IsAnswer};
ghost use Rattle.status.specs.Response.{asked_text};
ghost use Rattle.std.specs.List.{count_by};
ghost use Rattle.status.specs.declared.wanted.TheConstants.{MOST_HEAD_BYTES};

use crate::data::{data_of, history_of};
use crate::history::Seen;
use crate::page::page_bytes;
use crate::response::response_of;
use crate::wanted::{Asked, Wanted, wanted_by};
use figures::{Figures, NodeFigures, Replicas};
use metrics::metrics_of;
use std::alloc::{AllocError, Global};

/// How many of these nodes are up.
fn up(nodes: &[NodeFigures]) -> usize
    ensures { result ≡ count_by (λ node. node.is_up) nodes.now }
{
    nodes.iter().filter(|node| node.is_up).count()
}

/// Whether more than half of the executors and of the verifiers are up.
fn is_served(replicas: &Replicas) -> bool
    ensures { result ≡ is_served replicas.now }
{
    let half = usize::from(replicas.members) / 2;
    half < up(replicas.executors.as_slice()) && half < up(replicas.verifiers.as_slice())
}

/// Health, or why there is none.
fn health_of(figures: &Figures) -> Wanted
    ensures { result ≡ health_of figures.now }
{
    if !is_served(&figures.replicas) {
        Wanted::TooFew
    } else if 0 < figures.saves.failing {
        Wanted::Unsaved
    } else {
        Wanted::Health
    }
}

/// What is shown of what is asked for: what health is, is seen in the figures.
fn resolved(asked: Asked, figures: &Figures) -> Asked
    ensures { result ≡ resolved figures.now asked }
{
    match asked.wanted {
        Wanted::Health => Asked {
            wanted: health_of(figures),
            is_head: asked.is_head,
        },
        _ => asked,
    }
}

/// The response with what is wanted of what is shown.
fn shown(alloc: Global, asked: Asked, seen: &Seen) -> Result<Vec<u8>, AllocError>
    ensures { IfOk result (λ response. response.items ≡ asked_text asked (body_text seen.now asked.wanted)) }
{
    match asked.wanted {
        Wanted::Page => response_of(alloc, asked, page_bytes()),
        Wanted::Data => response_of(
            alloc,
            asked,
            data_of(alloc, &seen.figures, &seen.folders)?.as_bytes(),
        ),
        Wanted::History => response_of(
            alloc,
            asked,
            history_of(alloc, seen.history.samples())?.as_bytes(),
        ),
        Wanted::Metrics => response_of(
            alloc,
            asked,
            metrics_of(alloc, &seen.figures, &seen.folders)?.as_slice(),
        ),
        Wanted::Health
        | Wanted::TooFew
        | Wanted::Unsaved
        | Wanted::NotFound
        | Wanted::BadMethod
        | Wanted::BadRequest
        | Wanted::TooLong => response_of(alloc, asked, asked.wanted.note()),
    }
}

/// The response to the bytes that came so far of a request: `GET /` is the page, `/metrics` and `/data.json` show
/// the figures, `/history.json` the samples of the last ten minutes, and `/healthz` says whether more than half of
/// the replicas of each kind are up and the last save did not fail.
/// HEAD is answered by the head of what GET is answered. None: more bytes are needed; fewer than 8,192 have come.
///
/// It fails if an allocation fails.
pub fn answer(alloc: Global, request: &[u8], seen: &Seen) -> Result<Option<Vec<u8>>, AllocError>
    ensures short { IfOk result (λ answer. IfNone answer (length request.now < MOST_HEAD_BYTES)) }
    ensures unfinished { IfOk result (λ answer. IfNone answer (MayBecomeRequest request.now)) }
    ensures response { IfOk result (λ answer. IfSome answer (λ response. IsAnswer request.now seen.now response.items)) }
{
    match wanted_by(request) {
        None => Ok(None),
        Some(asked) => Ok(Some(shown(alloc, resolved(asked, &seen.figures), seen)?)),
    }
}
