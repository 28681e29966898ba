//! The inside of a reader: what it reads next, and what it holds of that.

ghost use Rattle.std.specs.Prelude.{◌≡◌, ◌≤◌, ◌<◌, ◌+◌, ◌-◌, ◌++◌, [], length, take, false, IfOk, OnOk, OnErr};
ghost use Rattle.std.specs.Bool.{OnTrue};
ghost use Rattle.std.specs.Option.{option_to_list};
ghost use Rattle.proto.specs.Grammar.{filled};
ghost use Rattle.proto.specs.Stage.{FindsNewline};
ghost use Rattle.proto.specs.declared.block.TheConstants.{MOST_BLOCK_BYTES};
ghost use Rattle.dialect.specs.declared.line.TheConstants.{MOST_LINE_BYTES};
ghost use Rattle.dialect.specs.declared.line.Opening.{Opening as OpeningValue};
ghost use Rattle.dialect.specs.Meaning.{meaning, block_turn as block_value};
ghost use Rattle.dialect.specs.State.{state_at, read_bytes, to, start, Runs, IsReaderState, HoldsWithin};
ghost use Rattle.dialect.specs.Stage.{stage_state, starts_binary as binary_start, CutsLine, IsBlockOf, IsUnreadOf, EndsNothing};

use crate::line::{MOST_LINE_BYTES, Opening};
use crate::meaning::{read_line, said};
use crate::part::Part;
use crate::reading::push_some;
use crate::turn::{Notice, Turn};
use memchr::memchr;
use proto::{Block, Command, Header, Kind, MOST_BLOCK_BYTES, Update};
use std::alloc::{AllocError, Global};
use std::mem;

/// What is read next, and the bytes of it that are there.
#[derive(Drop)]
pub struct Stage {
    pub part: Part,
    /// Part of a line, or of a block and the two bytes after it.
    pub held: Vec<u8>,
}

/// How a line goes on in a piece.
enum Cut {
    /// The place of its newline.
    End(usize),
    /// It is too long, with so many bytes of the piece.
    TooLong(usize),
    Open,
}

fn newline_in(bytes: &[u8]) -> Option<usize>
    ensures { FindsNewline bytes.now result }
{
    memchr(10, bytes)
}

/// How a line of which so many bytes are there goes on.
fn cut_of(held: usize, piece: &[u8]) -> Cut
    requires { held < MOST_LINE_BYTES }
    ensures { CutsLine held piece.now result }
{
    let room = MOST_LINE_BYTES - held;
    if piece.len() < room {
        return match newline_in(piece) {
            Some(at) => Cut::End(at),
            None => Cut::Open,
        };
    }
    let (window, _) = piece.split_at(room);
    match newline_in(window) {
        Some(at) => Cut::End(at),
        None => Cut::TooLong(room),
    }
}

/// How many bytes are left after some.
fn less(left: u32, bytes: usize) -> u32
    requires { bytes < left }
    ensures { result ≡ left - bytes }
{
    left - bytes as u32
}

fn fill(header: Header, block: Block) -> Command
    ensures { result ≡ filled header block }
{
    let Header {
        kind,
        key,
        flags,
        exptime,
        size: _,
        quiet: _,
    } = header;
    match kind {
        Kind::Plain(verb) => Command::Update(Update::Store {
            verb,
            key,
            flags,
            exptime,
            block,
        }),
        Kind::Cas(unique) => Command::Update(Update::Cas {
            key,
            flags,
            exptime,
            block,
            unique,
        }),
    }
}

/// The turn of a storage line, from its block and the two bytes after it. The block takes over the
/// bytes.
fn block_turn(opening: Opening, mut held: Vec<u8>) -> Result<Option<Turn>, AllocError>
    requires whole { length held.items ≡ opening.header.size + 2 }
    requires small { opening.header.size ≤ MOST_BLOCK_BYTES }
    ensures { IfOk result (λ turn. turn ≡ block_value opening held.items) }
{
    let Opening { header, show } = opening;
    let size = header.size as usize;
    let quiet = header.quiet;
    let (_, end) = held.as_slice().split_at(size);
    if end != b"\r\n".as_slice() {
        return Ok(said(quiet, Notice::BadChunk));
    }
    held.truncate(size);
    let block = Block::new(held)?;
    Ok(Some(Turn::Ask(fill(header, block), show)))
}

impl Stage {
    pub fn new(alloc: Global) -> Stage
        ensures { stage_state result ≡ start }
    {
        Stage {
            part: Part::Line,
            held: Vec::new(alloc),
        }
    }

    /// A copy with room for the rest of the block.
    pub fn copy(&self, alloc: Global) -> Result<Stage, AllocError>
        requires { IsReaderState (stage_state self.now) }
        ensures { IfOk result (λ copy. stage_state copy ≡ stage_state self.now) }
    {
        let room = match &self.part {
            Part::Block(opening) => opening.header.size as usize + 2,
            _ => self.held.len(),
        };
        let mut held = Vec::with_capacity(alloc, room)?;
        held.extend_from_slice(self.held.as_slice())?;
        Ok(Stage {
            part: self.part.clone()?,
            held,
        })
    }

    /// Whether the piece ends neither a line nor what belongs to it.
    pub fn goes_on(&self, piece: &[u8]) -> bool
        requires { IsReaderState (stage_state self.now) }
        ensures { OnTrue result (EndsNothing self.now.part self.now.held.items piece.now) }
    {
        match &self.part {
            Part::Line => {
                !starts_binary(self.held.as_slice(), piece)
                    && piece.len() < MOST_LINE_BYTES - self.held.len()
                    && newline_in(piece).is_none()
            }
            Part::Block(opening) => {
                piece.len() < opening.header.size as usize + 2 - self.held.len()
            }
            Part::Unread(left, _) => piece.len() < *left as usize,
            Part::Closed => true,
        }
    }

    /// Adds a piece that ends neither a line nor what belongs to it. An `Err` changes nothing.
    pub fn extend(&mut self, piece: &[u8]) -> Result<(), AllocError>
        requires state { IsReaderState (stage_state self.old) }
        requires goes_on { EndsNothing self.old.part self.old.held.items piece.now }
        ensures ok { OnOk result (read_bytes (stage_state self.old) piece.now ≡ to [] (stage_state self.new)) }
        ensures state { IsReaderState (stage_state self.new) }
        ensures err { OnErr result (stage_state self.new ≡ stage_state self.old) }
    {
        match &mut self.part {
            Part::Line => self.held.extend_from_slice(piece),
            Part::Block(_) => self.held.extend_from_slice(piece),
            Part::Unread(left, _) => {
                *left = less(*left, piece.len());
                Ok(())
            }
            Part::Closed => Ok(()),
        }
    }

    fn step_line(
        &mut self,
        alloc: Global,
        piece: &[u8],
        turns: &mut Vec<Turn>,
    ) -> Result<usize, AllocError>
        requires line { self.old.part ≡ Part.Line }
        requires short { length self.old.held.items < MOST_LINE_BYTES }
        requires some { 0 < length piece.now }
        ensures count { IfOk result (λ n. (0 < n) × (n ≤ length piece.now)) }
        ensures runs { IfOk result (λ n. Runs (stage_state self.old) (take n piece.now) turns.old.items turns.new.items (stage_state self.new)) }
        ensures state { OnOk result (IsReaderState (stage_state self.new)) }
    {
        if starts_binary(self.held.as_slice(), piece) {
            turns.push(Turn::Close(Notice::Binary))?;
            self.part = Part::Closed;
            return Ok(1);
        }
        match cut_of(self.held.len(), piece) {
            Cut::Open => {
                self.held.extend_from_slice(piece)?;
                Ok(piece.len())
            }
            Cut::TooLong(n) => {
                turns.push(Turn::Close(Notice::LineTooLong))?;
                self.held.clear();
                self.part = Part::Closed;
                Ok(n)
            }
            Cut::End(at) => {
                let (front, _) = piece.split_at(at);
                self.held.extend_from_slice(front)?;
                self.end_line(alloc, turns)?;
                Ok(at + 1)
            }
        }
    }

    /// Gives the turns of the line that is held. Room is made for the block that follows, if one does.
    fn end_line(&mut self, alloc: Global, turns: &mut Vec<Turn>) -> Result<(), AllocError>
        ensures turns { OnOk result (turns.new.items ≡ turns.old.items ++ (meaning self.old.held.items).turns) }
        ensures part { OnOk result (stage_state self.new ≡ state_at (meaning self.old.held.items).part []) }
    {
        let part = read_line(alloc, self.held.as_slice(), turns)?;
        self.held.clear();
        if let Part::Block(opening) = &part {
            self.held.reserve(opening.header.size as usize + 2)?;
        }
        self.part = part;
        Ok(())
    }

    fn step_block(
        &mut self,
        alloc: Global,
        size: u32,
        piece: &[u8],
        turns: &mut Vec<Turn>,
    ) -> Result<usize, AllocError>
        requires block { IsBlockOf size self.old.part }
        requires within { IsReaderState (stage_state self.old) }
        requires some { 0 < length piece.now }
        ensures count { IfOk result (λ n. (0 < n) × (n ≤ length piece.now)) }
        ensures runs { IfOk result (λ n. Runs (stage_state self.old) (take n piece.now) turns.old.items turns.new.items (stage_state self.new)) }
        ensures state { OnOk result (IsReaderState (stage_state self.new)) }
    {
        let whole = size as usize + 2;
        let n = (whole - self.held.len()).min(piece.len());
        let (front, _) = piece.split_at(n);
        self.held.extend_from_slice(front)?;
        if self.held.len() == whole {
            self.end_block(alloc, size, turns)?;
        }
        Ok(n)
    }

    /// Gives the turn of the block that is held.
    fn end_block(
        &mut self,
        alloc: Global,
        size: u32,
        turns: &mut Vec<Turn>,
    ) -> Result<(), AllocError>
        requires block { IsBlockOf size self.old.part }
        requires whole { length self.old.held.items ≡ size + 2 }
        requires small { size ≤ MOST_BLOCK_BYTES }
        ensures turns { OnOk result ((o : OpeningValue) → self.old.part ≡ Part.Block o → turns.new.items ≡ turns.old.items ++ option_to_list (block_value o self.old.held.items)) }
        ensures start { OnOk result (stage_state self.new ≡ start) }
    {
        let held = mem::replace(&mut self.held, Vec::new(alloc));
        if let Part::Block(opening) = mem::replace(&mut self.part, Part::Line) {
            push_some(block_turn(opening, held)?, turns)?;
        }
        Ok(())
    }

    fn step_unread(
        &mut self,
        left: u32,
        piece: &[u8],
        turns: &mut Vec<Turn>,
    ) -> Result<usize, AllocError>
        requires unread { IsUnreadOf left self.old.part }
        requires within { IsReaderState (stage_state self.old) }
        requires some { 0 < length piece.now }
        ensures count { IfOk result (λ n. (0 < n) × (n ≤ length piece.now)) }
        ensures runs { IfOk result (λ n. Runs (stage_state self.old) (take n piece.now) turns.old.items turns.new.items (stage_state self.new)) }
        ensures state { OnOk result (IsReaderState (stage_state self.new)) }
    {
        let left = left as usize;
        if piece.len() < left {
            self.extend(piece)?;
            return Ok(piece.len());
        }
        if let Part::Unread(_, turn) = mem::replace(&mut self.part, Part::Line) {
            push_some(turn, turns)?;
        }
        Ok(left)
    }

    /// Takes some bytes of the piece, at most to the end of a line or of what belongs to it, and adds the
    /// turns that end there. How many bytes it took.
    pub fn step(
        &mut self,
        alloc: Global,
        piece: &[u8],
        turns: &mut Vec<Turn>,
    ) -> Result<usize, AllocError>
        requires within { IsReaderState (stage_state self.old) }
        requires some { 0 < length piece.now }
        ensures count { IfOk result (λ n. (0 < n) × (n ≤ length piece.now)) }
        ensures runs { IfOk result (λ n. Runs (stage_state self.old) (take n piece.now) turns.old.items turns.new.items (stage_state self.new)) }
        ensures state { OnOk result (IsReaderState (stage_state self.new)) }
    {
        match &self.part {
            Part::Line => self.step_line(alloc, piece, turns),
            Part::Block(opening) => {
                let size = opening.header.size;
                self.step_block(alloc, size, piece, turns)
            }
            Part::Unread(left, _) => {
                let left = *left;
                self.step_unread(left, piece, turns)
            }
            Part::Closed => Ok(piece.len()),
        }
    }
}

/// Whether a line begins with the first byte of the binary protocol, with that piece.
fn starts_binary(held: &[u8], piece: &[u8]) -> bool
    ensures { result ≡ binary_start held.now piece.now }
{
    match piece {
        [first, ..] => held.is_empty() && *first == 128,
        _ => false,
    }
}
