//! What a request asks for.

ghost use Rattle.std.specs.Prelude.{◌≡◌, ◌<◌, false, IfNone, IfSome, length, position, ◌==◌};
ghost use Rattle.httparse.specs.Grammar.{MayBecomeRequest};
ghost use Rattle.status.specs.Wanted.{Wants, of_target, of_parts, path_of};
ghost use Rattle.status.specs.declared.wanted.TheConstants.{MOST_HEAD_BYTES};

use httparse::spans::{EMPTY_HEADER_SPAN, parse_request};
use httparse::{Error, Status};

/// The most bytes of a request's head.
pub const MOST_HEAD_BYTES: usize = 8192;

/// The most fields of a request's head.
pub const MOST_FIELDS: usize = 64;

/// What a request is answered with.
#[derive(Clone, Copy, Debug, PartialEq, Eq)]
pub enum Wanted {
    /// The page for a browser.
    Page,
    /// The figures as JSON.
    Data,
    /// The samples of the last ten minutes as JSON.
    History,
    /// The figures in Prometheus' text form.
    Metrics,
    /// Whether the server answers: enough replicas are up, and the last save did not fail.
    Health,
    /// 503: too few replicas are up.
    TooFew,
    /// 503: the last save failed.
    Unsaved,
    /// 404: there is nothing at this path.
    NotFound,
    /// 405: the method is neither GET nor HEAD.
    BadMethod,
    /// 400: it is no request of HTTP/1.
    BadRequest,
    /// 431: the head is over 8,192 bytes, or has more than 64 fields.
    TooLong,
}

/// What a request asks for, and whether it asks for the head of the response alone.
#[derive(Clone, Copy, Debug, PartialEq, Eq)]
pub struct Asked {
    pub wanted: Wanted,
    pub is_head: bool,
}

impl Asked {
    /// All of the response.
    fn whole(wanted: Wanted) -> Asked
        ensures { result ≡ record { wanted = wanted; is_head = false } }
    {
        Asked {
            wanted,
            is_head: false,
        }
    }
}

/// Where the query of a target begins, if it has one.
fn query_start(target: &[u8]) -> Option<usize>
    ensures start { result ≡ position (λ b. b == 63) target.now }
    ensures within { IfSome result (λ end. end < length target.now) }
{
    target.iter().position(|b| *b == b'?')
}

/// The target before its query.
fn path(target: &[u8]) -> &[u8]
    ensures { result.now ≡ path_of target.now }
{
    match query_start(target) {
        Some(end) => &target[..end],
        None => target,
    }
}

fn at_target(target: &[u8]) -> Wanted
    ensures { result ≡ of_target target.now }
{
    let path = path(target);
    if path == b"/metrics".as_slice() {
        Wanted::Metrics
    } else if path == b"/data.json".as_slice() {
        Wanted::Data
    } else if path == b"/history.json".as_slice() {
        Wanted::History
    } else if path == b"/healthz".as_slice() {
        Wanted::Health
    } else if path == b"/".as_slice() {
        Wanted::Page
    } else {
        Wanted::NotFound
    }
}

fn at_head(method: &[u8], target: &[u8]) -> Asked
    ensures { result ≡ of_parts method.now target.now }
{
    if method == b"GET".as_slice() {
        Asked::whole(at_target(target))
    } else if method == b"HEAD".as_slice() {
        Asked {
            wanted: at_target(target),
            is_head: true,
        }
    } else {
        Asked::whole(Wanted::BadMethod)
    }
}

/// What the bytes that came so far ask for. None: the head is not whole, and more bytes may complete it.
pub fn wanted_by(request: &[u8]) -> Option<Asked>
    ensures short { IfNone result (length request.now < MOST_HEAD_BYTES) }
    ensures unfinished { IfNone result (MayBecomeRequest request.now) }
    ensures wanted { IfSome result (Wants request.now) }
{
    let mut fields = [EMPTY_HEADER_SPAN; MOST_FIELDS];
    match parse_request(request, fields.as_mut_slice()) {
        Ok(Status::Complete(head)) if MOST_HEAD_BYTES < head.len => {
            Some(Asked::whole(Wanted::TooLong))
        }
        Ok(Status::Complete(head)) => Some(at_head(head.method.of(request), head.path.of(request))),
        Ok(Status::Partial) if MOST_HEAD_BYTES <= request.len() => Some(Asked::whole(
            Wanted::TooLong,
        )),
        Ok(Status::Partial) => None,
        Err(Error::TooManyHeaders) => Some(Asked::whole(Wanted::TooLong)),
        Err(_) => Some(Asked::whole(Wanted::BadRequest)),
    }
}
