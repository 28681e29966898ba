//! What is there of the turn that comes next.

ghost use Rattle.std.specs.Prelude.{◌≡◌, ◌≤◌, ◌<◌, ◌+◌, ◌-◌, ◌^◌, ◌++◌, ◌∷◌, [], length, take, drop, IfOk, OnOk, OnErr, None, Some, min, nat_lt, if◌then◌else◌};
ghost use Rattle.std.specs.Bool.{OnTrue, OnFalse};
ghost use Rattle.proto.specs.declared.block.TheConstants.{MOST_BLOCK_BYTES};
ghost use Rattle.proto.specs.Line.{meaning};
ghost use Rattle.proto.specs.declared.line.Line.TheVariants.{Opens};
ghost use Rattle.proto.specs.Grammar.{block_turn, filled};
ghost use Rattle.proto.specs.declared.line.TheConstants.{MOST_LINE_BYTES};
ghost use Rattle.proto.specs.Stage.{HasNoNewline, InLine, OpensBlock, IsStage, IsStageOf, staged, StepGives, TakesPiece, GoesOn, BlockEnds, FindsNewline, Cuts, IsTurnWithin};

use crate::block::{Block, MOST_BLOCK_BYTES};
use crate::command::{Command, Update};
use crate::held::Held;
use crate::line::{Header, Kind, Line, MOST_LINE_BYTES};
use crate::meaning::line_meaning;
use crate::turn::{Notice, Turn};
use memchr::memchr;
use std::alloc::{AllocError, Global};
use std::mem;

/// A line, or a storage line and part of its block. If all of a block is in the piece in which
/// its line ends, the turn is given at once; else what the line asks beside the size of its block is
/// read once more when the block ends.
#[derive(Drop)]
pub struct Stage {
    /// With its newline, if a block follows.
    pub line: Held,
    pub block: Held,
    /// How many bytes the block has, if the line opens one.
    pub size: Option<u32>,
    /// How many bytes of the block are only counted.
    pub dropped: usize,
}

/// How a line goes on in a piece.
#[derive(Drop)]
enum Cut {
    /// The place of its newline.
    End(usize),
    /// It is too long, with so many bytes of the piece.
    TooLong(usize),
    Open,
}

fn newline_in(bytes: &[u8]) -> Option<usize>
    ensures { FindsNewline bytes.now result }
{
    memchr(10, bytes)
}

fn cut_of(line: &[u8], piece: &[u8]) -> Cut
    requires one_line { HasNoNewline line.now }
    requires short { length line.now < MOST_LINE_BYTES }
    requires some { 0 < length piece.now }
    ensures { Cuts line.now piece.now result }
{
    let room = MOST_LINE_BYTES - line.len();
    if piece.len() < room {
        return match newline_in(piece) {
            Some(at) => Cut::End(at),
            None => Cut::Open,
        };
    }
    let (window, _) = piece.split_at(room);
    match newline_in(window) {
        Some(at) => Cut::End(at),
        None => Cut::TooLong(room),
    }
}

fn fill(header: Header, block: Block) -> Command
    ensures { result ≡ filled header block }
{
    let Header {
        kind,
        key,
        flags,
        exptime,
        size: _,
        quiet: _,
    } = header;
    match kind {
        Kind::Plain(verb) => Command::Update(Update::Store {
            verb,
            key,
            flags,
            exptime,
            block,
        }),
        Kind::Cas(unique) => Command::Update(Update::Cas {
            key,
            flags,
            exptime,
            block,
            unique,
        }),
    }
}

/// The turn of a storage line, from its block and the two bytes after it.
fn end_turn(header: Header, mut held: Held) -> Result<Turn, AllocError>
    requires ended { 2 ≤ length held }
    requires held { length held ≤ header.size + 2 }
    ensures { IfOk result (λ turn. turn
        ≡ block_turn header (take (length held - 2) held) (drop (length held - 2) held)) }
{
    let size = held.len() - 2;
    let (_, end) = held.as_slice().split_at(size);
    if end != b"\r\n".as_slice() {
        return Ok(Turn::Close(Notice::BadChunk));
    }
    if header.size as usize > MOST_BLOCK_BYTES {
        return Ok(Turn::Say(Notice::TooLarge));
    }
    let quiet = header.quiet;
    held.truncate(size);
    let block = Block::new(held.into_vec())?;
    Ok(Turn::Ask(fill(header, block), quiet))
}

/// The turn of a storage line whose block and the two bytes after it begin these bytes, if all of
/// them are there.
fn turn_within(alloc: Global, header: Header, after: &[u8]) -> Result<Option<Turn>, AllocError>
    ensures { IfOk result (λ turn. IsTurnWithin header after.now turn) }
{
    let size = header.size as usize;
    if after.len() < size + 2 {
        return Ok(None);
    }
    let (block, rest) = after.split_at(size);
    let (line_end, _) = rest.split_at(2);
    if line_end != b"\r\n".as_slice() {
        return Ok(Some(Turn::Close(Notice::BadChunk)));
    }
    if size > MOST_BLOCK_BYTES {
        return Ok(Some(Turn::Say(Notice::TooLarge)));
    }
    let quiet = header.quiet;
    let block = Block::from_slice(alloc, block)?;
    Ok(Some(Turn::Ask(fill(header, block), quiet)))
}

/// How many of the next bytes of a block are only counted.
fn skip_of(size: u32, dropped: usize, n: usize) -> usize
    requires { dropped ≤ size }
    ensures skip { result ≡ (if nat_lt MOST_BLOCK_BYTES size then min (size - dropped) n else 0) }
    ensures fits { dropped + result < 2 ^ 32 }
{
    let size = size as usize;
    if size > MOST_BLOCK_BYTES {
        (size - dropped).min(n)
    } else {
        0
    }
}

/// How many bytes of a block, with the two after it, are held at most.
fn room_of(size: u32) -> usize
    ensures { result ≤ MOST_BLOCK_BYTES + 2 }
{
    let size = size as usize;
    if size > MOST_BLOCK_BYTES { 2 } else { size + 2 }
}

/// What a correct storage line asks, of the line with its newline.
fn header_of(alloc: Global, line: &[u8]) -> Result<Header, AllocError>
    requires some { 0 < length line.now }
    requires opens { OpensBlock (meaning (take (length line.now - 1) line.now)) }
    ensures { IfOk result (λ header. Opens header ≡ meaning (take (length line.now - 1) line.now)) }
{
    let (text, _) = line.split_at(line.len() - 1);
    match line_meaning(alloc, text)? {
        Line::Opens(header) => Ok(header),
        Line::Whole(_) => unreachable!(),
    }
}

impl Stage {
    pub fn new(alloc: Global) -> Stage
        ensures stage { IsStage result }
        ensures empty { staged result ≡ [] }
        ensures held { length result.line + length result.block ≡ 0 }
    {
        Stage {
            line: Held::new(alloc),
            block: Held::new(alloc),
            size: None,
            dropped: 0,
        }
    }

    /// A copy with room for the rest of the block.
    pub fn copy(&self, alloc: Global) -> Result<Stage, AllocError>
        ensures { IfOk result (λ copy. copy ≡ self.now) }
    {
        let room = match self.size {
            None => 0,
            Some(size) => room_of(size),
        };
        let mut block = Held::with_room(alloc, room)?;
        block.extend(self.block.as_slice())?;
        Ok(Stage {
            line: self.line.clone()?,
            block,
            size: self.size,
            dropped: self.dropped,
        })
    }

    /// Whether neither the line nor the block ends in the piece.
    pub fn goes_on(&self, piece: &[u8]) -> bool
        requires { IsStage self.now }
        ensures goes { OnTrue result (GoesOn self.now.size self.now.line self.now.block self.now.dropped piece.now) }
        ensures ends { OnFalse result (BlockEnds self.now.size self.now.block self.now.dropped piece.now) }
    {
        match self.size {
            None => {
                piece.len() < MOST_LINE_BYTES - self.line.len() && newline_in(piece).is_none()
            }
            Some(size) => {
                let need = size as usize + 2 - self.dropped - self.block.len();
                piece.len() < need
            }
        }
    }

    /// Adds a piece in which neither the line nor the block ends. An `Err` changes nothing.
    pub fn extend(&mut self, piece: &[u8]) -> Result<(), AllocError>
        requires stage { IsStage self.old }
        requires goes_on { GoesOn self.old.size self.old.line self.old.block self.old.dropped piece.now }
        ensures takes { OnOk result (TakesPiece (staged self.old) piece.now self.new) }
        ensures stage { IsStage self.new }
        ensures err { OnErr result (self.new ≡ self.old) }
    {
        match self.size {
            None => self.line.extend(piece),
            Some(size) => {
                let skip = skip_of(size, self.dropped, piece.len());
                let (_, keep) = piece.split_at(skip);
                self.block.extend(keep)?;
                self.dropped += skip;
                Ok(())
            }
        }
    }

    fn step_line(
        &mut self,
        alloc: Global,
        piece: &[u8],
    ) -> Result<(Option<Turn>, usize), AllocError>
        requires none { self.old.size ≡ None }
        requires line { InLine self.old.line self.old.block self.old.dropped }
        requires some { 0 < length piece.now }
        ensures gives { IfOk result (λ r. StepGives (staged self.old) piece.now r.0 r.1 self.new) }
        ensures stage { OnOk result (IsStage self.new) }
    {
        match cut_of(self.line.as_slice(), piece) {
            Cut::Open => {
                self.line.extend(piece)?;
                Ok((None, piece.len()))
            }
            Cut::TooLong(n) => {
                self.line.clear();
                Ok((Some(Turn::Close(Notice::LineTooLong)), n))
            }
            Cut::End(at) => self.end_line(alloc, piece, at),
        }
    }

    /// Takes the end of the line, and all of its block if that is in the piece.
    fn end_line(
        &mut self,
        alloc: Global,
        piece: &[u8],
        at: usize,
    ) -> Result<(Option<Turn>, usize), AllocError>
        requires none { self.old.size ≡ None }
        requires line { InLine self.old.line self.old.block self.old.dropped }
        requires ends { Cuts self.old.line piece.now (Cut.End at) }
        ensures gives { IfOk result (λ r. StepGives (staged self.old) piece.now r.0 r.1 self.new) }
        ensures stage { OnOk result (IsStage self.new) }
    {
        let (front, _) = piece.split_at(at);
        self.line.extend(front)?;
        match line_meaning(alloc, self.line.as_slice())? {
            Line::Whole(turn) => {
                self.line.clear();
                Ok((Some(turn), at + 1))
            }
            Line::Opens(header) => {
                let size = header.size;
                let (_, after) = piece.split_at(at + 1);
                if let Some(turn) = turn_within(alloc, header, after)? {
                    self.line.clear();
                    return Ok((Some(turn), at + 1 + (size as usize + 2)));
                }
                self.block.reserve(room_of(size))?;
                self.line.extend(b"\n".as_slice())?;
                self.size = Some(size);
                Ok((None, at + 1))
            }
        }
    }

    /// Takes the end of the block, and gives its turn.
    fn end_block(
        &mut self,
        alloc: Global,
        size: u32,
        piece: &[u8],
    ) -> Result<(Option<Turn>, usize), AllocError>
        requires inside { IsStageOf (Some size) self.old.line self.old.block self.old.dropped }
        requires ends { size + 2 ≤ self.old.dropped + length self.old.block + length piece.now }
        ensures gives { IfOk result (λ r. StepGives (staged self.old) piece.now r.0 r.1 self.new) }
        ensures stage { OnOk result (IsStage self.new) }
    {
        let n = size as usize + 2 - self.dropped - self.block.len();
        let (front, _) = piece.split_at(n);
        let skip = skip_of(size, self.dropped, n);
        let (_, keep) = front.split_at(skip);
        self.block.extend(keep)?;
        let header = header_of(alloc, self.line.as_slice())?;
        let held = mem::replace(&mut self.block, Held::new(alloc));
        let turn = end_turn(header, held)?;
        self.line.clear();
        self.size = None;
        self.dropped = 0;
        Ok((Some(turn), n))
    }

    /// Takes some bytes of the piece, at most to the end of a turn.
    pub fn step(&mut self, alloc: Global, piece: &[u8]) -> Result<(Option<Turn>, usize), AllocError>
        requires stage { IsStage self.old }
        requires some { 0 < length piece.now }
        ensures gives { IfOk result (λ r. StepGives (staged self.old) piece.now r.0 r.1 self.new) }
        ensures stage { OnOk result (IsStage self.new) }
    {
        if self.size.is_some() && self.goes_on(piece) {
            self.extend(piece)?;
            return Ok((None, piece.len()));
        }
        match self.size {
            None => self.step_line(alloc, piece),
            Some(size) => self.end_block(alloc, size, piece),
        }
    }
}
