//! What a line says.

ghost use Rattle.std.specs.Prelude.{◌≡◌, IfOk};
ghost use Rattle.std.specs.Option.{option_map};
ghost use Rattle.schedules.specs.Reading as spec;

use crate::escape::unescaped;
use crate::keyword::{Keyword, keyword_of};
use crate::number::{client_in, count_in, moment_in, place_in, replica_in, replica_number_in};
use crate::parts::parted;
use events::Event;
use proto::number_in;
use std::alloc::{AllocError, Global};

/// A line of a schedule, after those that say how large the world is.
#[derive(Drop)]
pub enum ScheduleLine {
    /// This event happens.
    Happens(Event),
    /// Letters are delivered and work is done, in their order, until nothing is left to do: at most so
    /// many events.
    Settle { most: u32 },
    /// So many events at random, made from this seed.
    Random { seed: u64, count: u32 },
}

fn cut_of(rest: &[u8]) -> Option<Event>
    ensures { result ≡ spec.event_said Keyword.Cut rest.now }
{
    let (executor, moment) = parted(b' ', rest)?;
    Some(Event::Cut {
        executor: replica_number_in(executor)?,
        moment: moment_in(moment)?,
    })
}

fn step_of(rest: &[u8]) -> Option<Event>
    ensures { result ≡ spec.event_said Keyword.Step rest.now }
{
    let (executor, place) = parted(b' ', rest)?;
    Some(Event::Step {
        executor: replica_number_in(executor)?,
        place: place_in(place)?,
    })
}

/// An event other than a Feed, by the first word of its line and what follows the space after it.
fn event_of(keyword: Keyword, rest: &[u8]) -> Option<Event>
    ensures { result ≡ spec.event_said keyword rest.now }
{
    Some(match keyword {
        Keyword::Again => Event::Again {
            client: client_in(rest)?,
        },
        Keyword::Hangup => Event::Hangup {
            client: client_in(rest)?,
        },
        Keyword::Deliver => Event::Deliver {
            letter: number_in(rest)?,
        },
        Keyword::Cut => cut_of(rest)?,
        Keyword::Step => step_of(rest)?,
        Keyword::Finish => Event::Finish {
            executor: replica_number_in(rest)?,
        },
        Keyword::Suspect => Event::Suspect {
            verifier: replica_number_in(rest)?,
        },
        Keyword::Crash => Event::Crash(replica_in(rest)?),
        Keyword::Restart => Event::Restart(replica_in(rest)?),
        Keyword::Lose => Event::Lost(replica_in(rest)?),
        Keyword::FailSave => Event::FailSave(replica_in(rest)?),
        Keyword::Feed | Keyword::Settle | Keyword::Random => return None,
    })
}

fn feed_of(alloc: Global, rest: &[u8]) -> Result<Option<ScheduleLine>, AllocError>
    ensures { IfOk result (λ said. option_map spec.line_view said ≡ spec.feed_said rest.now) }
{
    let Some((client, text)) = parted(b' ', rest) else {
        return Ok(None);
    };
    let Some(client) = client_in(client) else {
        return Ok(None);
    };
    let Some(bytes) = unescaped(alloc, text)? else {
        return Ok(None);
    };
    Ok(Some(ScheduleLine::Happens(Event::Feed { client, bytes })))
}

fn settle_of(rest: &[u8]) -> Option<ScheduleLine>
    ensures { result ≡ spec.settle_said rest.now }
{
    Some(ScheduleLine::Settle {
        most: count_in(rest)?,
    })
}

fn random_of(rest: &[u8]) -> Option<ScheduleLine>
    ensures { result ≡ spec.random_said rest.now }
{
    let (seed, count) = parted(b' ', rest)?;
    Some(ScheduleLine::Random {
        seed: number_in(seed)?,
        count: count_in(count)?,
    })
}

/// What the line says, if it says anything.
pub fn line_of(alloc: Global, line: &[u8]) -> Result<Option<ScheduleLine>, AllocError>
    ensures { IfOk result (λ said. option_map spec.line_view said ≡ spec.line_said line.now) }
{
    let Some((word, rest)) = parted(b' ', line) else {
        return Ok(None);
    };
    let Some(keyword) = keyword_of(word) else {
        return Ok(None);
    };
    said_by(alloc, keyword, rest)
}

fn said_by(alloc: Global, keyword: Keyword, rest: &[u8]) -> Result<Option<ScheduleLine>, AllocError>
    ensures { IfOk result (λ said. option_map spec.line_view said ≡ spec.said_by keyword rest.now) }
{
    match keyword {
        Keyword::Feed => feed_of(alloc, rest),
        Keyword::Settle => Ok(settle_of(rest)),
        Keyword::Random => Ok(random_of(rest)),
        _ => match event_of(keyword, rest) {
            None => Ok(None),
            Some(event) => Ok(Some(ScheduleLine::Happens(event))),
        },
    }
}
