//! What part of a stream comes next.

ghost use Rattle.std.specs.Prelude.{◌≡◌, IfOk};

use crate::line::Opening;
use crate::turn::Turn;
use proto::Header;
use std::alloc::AllocError;

/// What a reader reads next.
#[derive(Drop)]
pub enum Part {
    Line,
    /// The block of a storage line, and the two bytes after it.
    Block(Opening),
    /// So many bytes that are not kept, and then this turn is given, if any.
    Unread(u32, Option<Turn>),
    /// Nothing more.
    Closed,
}

fn copied_header(header: &Header) -> Result<Header, AllocError>
    ensures { IfOk result (λ copy. copy ≡ header.now) }
{
    Ok(Header {
        kind: header.kind,
        key: header.key.clone()?,
        flags: header.flags,
        exptime: header.exptime,
        size: header.size,
        quiet: header.quiet,
    })
}

fn copied_opening(opening: &Opening) -> Result<Opening, AllocError>
    ensures { IfOk result (λ copy. copy ≡ opening.now) }
{
    Ok(Opening {
        header: copied_header(&opening.header)?,
        show: opening.show.clone()?,
    })
}

fn copied_turn(turn: &Option<Turn>) -> Result<Option<Turn>, AllocError>
    ensures { IfOk result (λ copy. copy ≡ turn.now) }
{
    match turn {
        None => Ok(None),
        Some(turn) => Ok(Some(turn.clone()?)),
    }
}

impl Clone for Part {
    ghost is_clone = { λ part copy. copy ≡ part };

    fn clone(&self) -> Result<Part, AllocError> {
        Ok(match self {
            Part::Line => Part::Line,
            Part::Block(opening) => Part::Block(copied_opening(opening)?),
            Part::Unread(left, turn) => Part::Unread(*left, copied_turn(turn)?),
            Part::Closed => Part::Closed,
        })
    }
}
