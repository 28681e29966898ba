//! A client's stream, piece by piece, in either grammar.

ghost use Rattle.std.specs.Prelude.{◌≡◌, IfOk, map};
ghost use Rattle.grammar.specs.Turns.{profile_turn, turn_with};
ghost use Rattle.grammar.specs.Limit.{turn_when, behind_mark};
ghost use Rattle.grammar.specs.declared.reader.Reader.TheVariants.{Memcached, Limited};
ghost use Rattle.grammar.specs.Reads.{new_reader, dialect_of, with_mark, ReaderReads};

use crate::conditions::{
    Conditions, bytes_in, count_all_refused, count_refused_of_profile, count_refused_quietly,
};
use crate::limit::refused;
use crate::turn::{Turn, of_memcached, of_profile};
use figures::{Figures, plus};
use std::alloc::{AllocError, Global};

/// In which grammar bytes are read.
#[derive(Clone, Copy, PartialEq, Eq)]
pub enum Dialect {
    /// The profile of the text protocol that `proto` reads.
    Profile,
    /// As memcached reads them.
    Memcached,
    /// So, and storage commands are refused while the items have more bytes than may be stored.
    Limited,
}

/// Reads a client's stream in one of the grammars.
#[derive(Drop)]
pub enum Reader {
    Profile(proto::Reader),
    Memcached(dialect::Reader),
    Limited(dialect::Reader),
}

/// The turns of the profile, in order.
fn all_of_profile(
    alloc: Global,
    read: Vec<proto::Turn>,
    figures: &mut Figures,
) -> Result<Vec<Turn>, AllocError>
    ensures { IfOk result (λ turns. turns.items ≡ map profile_turn read.items) }
{
    let mut turns = Vec::with_capacity(alloc, read.len())?;
    for turn in read {
        count_refused_of_profile(&turn, figures);
        turns.push(of_profile(turn))?;
    }
    Ok(turns)
}

/// The turn, or what is read in its place while no more may be stored.
fn turn_if(is_full: bool, turn: dialect::Turn) -> dialect::Turn
    ensures { result ≡ turn_when is_full turn }
{
    if is_full { refused(turn) } else { turn }
}

/// These turns, or what is read in their place while no more may be stored.
fn all_if(
    alloc: Global,
    is_full: bool,
    read: Vec<dialect::Turn>,
) -> Result<Vec<dialect::Turn>, AllocError>
    ensures { IfOk result (λ turns. turns.items ≡ map (turn_when is_full) read.items) }
{
    let mut turns = Vec::with_capacity(alloc, read.len())?;
    for turn in read {
        turns.push(turn_if(is_full, turn))?;
    }
    Ok(turns)
}

/// The turns of memcached's dialect, in order. What `stats` gives is that of these figures.
fn all_of_memcached(
    alloc: Global,
    read: Vec<dialect::Turn>,
    figures: &Figures,
) -> Result<Vec<Turn>, AllocError>
    ensures { IfOk result (λ turns. turns.items ≡ map (turn_with figures.now) read.items) }
{
    let mut turns = Vec::with_capacity(alloc, read.len())?;
    for turn in read {
        turns.push(of_memcached(alloc, turn, figures)?)?;
    }
    Ok(turns)
}

/// The turns of memcached's dialect that the piece ends.
fn feed_memcached(
    reader: &mut dialect::Reader,
    alloc: Global,
    piece: &[u8],
    figures: &mut Figures,
) -> Result<Vec<Turn>, AllocError>
    ensures { IfOk result (λ turns. ReaderReads (Memcached reader.old) piece.now turns.items (Memcached reader.new)) }
{
    let read = reader.feed(alloc, piece)?;
    count_all_refused(read.as_slice(), figures);
    all_of_memcached(alloc, read, figures)
}

/// So those of the dialect with a limit.
fn feed_limited(
    reader: &mut dialect::Reader,
    alloc: Global,
    piece: &[u8],
    conditions: &mut Conditions,
) -> Result<Vec<Turn>, AllocError>
    ensures { IfOk result (λ turns. ReaderReads (Limited reader.old) (behind_mark conditions.old.is_full piece.now) turns.items (Limited reader.new)) }
{
    let is_full = conditions.is_full;
    let read = reader.feed(alloc, piece)?;
    count_refused_quietly(is_full, read.as_slice(), &mut conditions.figures);
    let turns = all_if(alloc, is_full, read)?;
    conditions.asked_bytes = plus(conditions.asked_bytes, bytes_in(turns.as_slice()));
    count_all_refused(turns.as_slice(), &mut conditions.figures);
    all_of_memcached(alloc, turns, &conditions.figures)
}

impl Reader {
    /// Of a stream of which nothing came yet.
    pub fn new(alloc: Global, dialect: Dialect) -> Reader
        ensures { result ≡ new_reader dialect }
    {
        match dialect {
            Dialect::Profile => Reader::Profile(proto::Reader::new(alloc)),
            Dialect::Memcached => Reader::Memcached(dialect::Reader::new(alloc)),
            Dialect::Limited => Reader::Limited(dialect::Reader::new(alloc)),
        }
    }

    /// The turns that the next piece of the stream ends, in order. After a Close there are none, whatever comes. The
    /// conditions are those of this moment: what `stats` gives is theirs, and so it is whether a line may store.
    ///
    /// The only error is a failed allocation. After it a part may have been read, and the reader is to be let go.
    pub fn feed(
        &mut self,
        alloc: Global,
        piece: &[u8],
        conditions: &mut Conditions,
    ) -> Result<Vec<Turn>, AllocError>
        ensures { IfOk result (λ turns. ReaderReads self.old (with_mark (dialect_of self.old) conditions.old.is_full piece.now) turns.items self.new) }
    {
        match self {
            Reader::Profile(reader) => {
                let read = reader.feed(alloc, piece)?;
                all_of_profile(alloc, read, &mut conditions.figures)
            }
            Reader::Memcached(reader) => {
                feed_memcached(reader, alloc, piece, &mut conditions.figures)
            }
            Reader::Limited(reader) => feed_limited(reader, alloc, piece, conditions),
        }
    }
}
