//! Copies of letters, since each may come any number of times.

ghost use Rattle.std.specs.Prelude.{◌≡◌, IfOk};

use decrees::Letter;
use exec_lines::Body;
use std::alloc::AllocError;

/// A copy of what a letter says. It shares blocks and pages.
fn body_copy(body: &Body) -> Result<Body, AllocError>
    ensures { IfOk result (λ copy. copy ≡ body.now) }
{
    Ok(match body {
        Body::Want(request) => Body::Want(request.clone()?),
        Body::Order(batch) => Body::Order(batch.clone()?),
        Body::Reply { number, reply } => Body::Reply {
            number: *number,
            reply: reply.clone()?,
        },
        Body::Need(need) => Body::Need(need.clone()?),
        Body::Parcel(parcel) => Body::Parcel(parcel.clone()?),
        Body::Ballot(ballot) => Body::Ballot(*ballot),
    })
}

/// A copy of a letter. It shares blocks and pages with the letter.
pub fn letter_copy(letter: &Letter<Body>) -> Result<Letter<Body>, AllocError>
    ensures { IfOk result (λ copy. copy ≡ letter.now) }
{
    Ok(Letter {
        from: letter.from,
        to: letter.to,
        body: body_copy(&letter.body)?,
    })
}
