//! Bytes that come.

ghost use Rattle.std.specs.Prelude.{◌≡◌, ◌≤◌, ◌<◌, ◌+◌, ◌^◌, ◌++◌, ℕ, List, [], length, Some, None, IfOk, OnOk, IfErr, MatchResult};
ghost use Rattle.seals.specs.Frame.{frame, said_length, IsPartOfFrame, HasLongPiece, HasWholeFrame, IsEndFor};
ghost use Rattle.seals.specs.Opening.{HasOpened, OpensMore};
ghost use Rattle.seals.specs.Taking.{StepTakes, TakesAll};

use crate::fault::SealFault;
use crate::frame::{LENGTH_BYTES, MOST_PIECE_BYTES, TAG_BYTES, TakenPiece, tag_of};
use crate::tags::are_same;
use std::alloc::Global;
use std::marker::Model;

/// The frame that comes next.
#[derive(Drop)]
pub struct Coming {
    /// The number of its piece.
    pub number: u64,
    /// What is there of it.
    pub bytes: Vec<u8>,
}

/// The length that a frame begins with.
fn length_of(bytes: &[u8]) -> usize
    requires { LENGTH_BYTES ≤ length bytes.now }
    ensures said { result ≡ said_length bytes.now }
    ensures fits { result < 2 ^ 32 }
{
    match bytes.split_first_chunk::<4>() {
        Some((front, _)) => u32::from_be_bytes(*front) as usize,
        None => unreachable!(),
    }
}

/// How many bytes are missing of the length or, if that is there, of the frame.
fn missing_in(bytes: &[u8]) -> usize
    requires { IsPartOfFrame bytes.now }
    ensures some { 0 < result }
    ensures to_length { length bytes.now < LENGTH_BYTES → length bytes.now + result ≡ LENGTH_BYTES }
    ensures to_end { LENGTH_BYTES ≤ length bytes.now → length bytes.now + result ≡ LENGTH_BYTES + said_length bytes.now + TAG_BYTES }
{
    if bytes.len() < LENGTH_BYTES {
        return LENGTH_BYTES - bytes.len();
    }
    LENGTH_BYTES + length_of(bytes) + TAG_BYTES - bytes.len()
}

/// Refuses a length that no piece has.
fn check_length(bytes: &[u8]) -> Result<(), SealFault>
    requires { LENGTH_BYTES ≤ length bytes.now }
    ensures ok { OnOk result (said_length bytes.now ≤ MOST_PIECE_BYTES) }
    ensures err { IfErr result (λ fault. (fault ≡ SealFault.TooLong) × HasLongPiece bytes.now) }
{
    if length_of(bytes) > MOST_PIECE_BYTES {
        return Err(SealFault::TooLong);
    }
    Ok(())
}

/// The piece of a frame that is whole.
fn piece_in(
    alloc: Global,
    key: &[u8; 32],
    number: u64,
    bytes: &[u8],
) -> Result<TakenPiece, SealFault>
    requires { HasWholeFrame bytes.now }
    ensures ok { IfOk result (λ piece. (bytes.now ≡ frame key.now number piece) × (length piece ≤ MOST_PIECE_BYTES)) }
    ensures err { IfErr result (λ fault. IsEndFor fault key.now number bytes.now) }
{
    let (counted, tag) = bytes.split_at(bytes.len() - TAG_BYTES);
    if !are_same(&tag_of(key, number, counted), tag) {
        return Err(SealFault::WrongTag);
    }
    let (_, piece) = counted.split_at(LENGTH_BYTES);
    Ok(TakenPiece::new(Vec::from_slice(alloc, piece)?))
}

impl Coming {
    /// The piece of the frame, which is whole. After it the next frame comes.
    fn end_frame(&mut self, alloc: Global, key: &[u8; 32]) -> Result<TakenPiece, SealFault>
        requires { HasWholeFrame self.old.bytes.items }
        ensures ok { IfOk result (λ piece. (self.old.bytes.items ≡ frame key.now self.old.number piece) × (length piece ≤ MOST_PIECE_BYTES)) }
        ensures next { OnOk result ((self.new.number ≡ self.old.number + 1) × (self.new.number < 2 ^ 64) × (self.new.bytes.items ≡ [])) }
        ensures err { IfErr result (λ fault. IsEndFor fault key.now self.old.number self.old.bytes.items) }
    {
        let next = self.number.checked_add(1).ok_or(SealFault::Stopped)?;
        let piece = piece_in(alloc, key, self.number, self.bytes.as_slice())?;
        self.number = next;
        self.bytes.clear();
        Ok(piece)
    }

    /// Takes some of the bytes, at most to the end of the length or of the frame: the piece of a frame that is whole
    /// now, and how many bytes were taken.
    fn step(
        &mut self,
        alloc: Global,
        key: &[u8; 32],
        unread: &[u8],
    ) -> Result<(Option<TakenPiece>, usize), SealFault>
        requires part { IsPartOfFrame self.old.bytes.items }
        requires some { 0 < length unread.now }
        ensures ok { IfOk result (λ r. StepTakes key.now self.old.number self.old.bytes.items unread.now r.0 r.1 self.new.number self.new.bytes.items) }
        ensures err { IfErr result (λ fault. IsEndFor fault key.now self.old.number (self.old.bytes.items ++ unread.now)) }
    {
        let missing = missing_in(self.bytes.as_slice());
        let n = missing.min(unread.len());
        let (front, _) = unread.split_at(n);
        self.bytes.extend_from_slice(front)?;
        if n < missing {
            return Ok((None, n));
        }
        if self.bytes.len() == LENGTH_BYTES {
            check_length(self.bytes.as_slice())?;
            return Ok((None, n));
        }
        let piece = self.end_frame(alloc, key)?;
        Ok((Some(piece), n))
    }
}

/// Takes all of the bytes. The pieces of the frames that end in them go behind the others.
fn take_all(
    alloc: Global,
    key: &[u8; 32],
    coming: &mut Coming,
    bytes: &[u8],
    pieces: &mut Vec<TakenPiece>,
) -> Result<(), SealFault>
    requires part { IsPartOfFrame coming.old.bytes.items }
    requires number { coming.old.number < 2 ^ 64 }
    ensures ok { OnOk result (TakesAll key.now coming.old.number (coming.old.bytes.items ++ bytes.now) pieces.old.items pieces.new.items None coming.new.number coming.new.bytes.items) }
    ensures err { IfErr result (λ fault. TakesAll key.now coming.old.number (coming.old.bytes.items ++ bytes.now) pieces.old.items pieces.new.items (Some fault) coming.new.number coming.new.bytes.items) }
{
    let mut unread = bytes;
    while !unread.is_empty() {
        let (piece, n) = coming.step(alloc, key, unread)?;
        let (_, after) = unread.split_at(n);
        unread = after;
        if let Some(piece) = piece {
            pieces.push(piece)?;
        }
    }
    Ok(())
}

/// Takes what the other end seals under a key. It keeps the bytes of one frame that is not whole, fewer than 65,556.
pub struct Opener {
    key: [u8; 32],
    coming: Coming,
    /// Why nothing more is taken.
    end: Option<SealFault>,
}

impl Drop for Opener {
    fn drop(self) {
        let Opener {
            key: _,
            coming: _,
            end: _,
        } = self;
    }
}

impl Model for Opener {
    ghost use Rattle.seals.specs.Opening.{OpenerView, IsPartIf};

    ghost Value = { OpenerView };

    ghost view = { λ o. record { key = o.key; number = o.coming.number; kept = o.coming.bytes.items; end = o.end } };

    ghost invariant = { λ o. IsPartIf o.end o.coming.bytes.items };
}

impl Opener {
    /// Nothing came yet.
    pub fn new(alloc: Global, key: [u8; 32]) -> Opener
        ensures begun { HasOpened key [] [] result }
        ensures open { result.end ≡ None }
    {
        Opener {
            key,
            coming: Coming {
                number: 0,
                bytes: Vec::new(alloc),
            },
            end: None,
        }
    }

    /// Takes the next bytes that came, however they are cut. The pieces whose frames end in them go behind the others,
    /// in order.
    ///
    /// After an error nothing more is taken, whatever comes: each later call has the same error, and the connection is
    /// to be closed. The pieces before the error count.
    ///
    /// TooLong: a frame begins with a length above 65,536; WrongTag: the bytes are not those that were sealed next under
    /// this key; Stopped: no number is left after the piece's own; NoMemory.
    pub fn feed(
        &mut self,
        alloc: Global,
        bytes: &[u8],
        pieces: &mut Vec<TakenPiece>,
    ) -> Result<(), SealFault>
        ensures taken { (key all : List ℕ) (before : List (List ℕ)) → HasOpened key all before self.old → OpensMore key (all ++ bytes.now) before pieces.old.items pieces.new.items self.new }
        ensures ended { MatchResult result (λ _. self.new.end ≡ None) (λ fault. self.new.end ≡ Some fault) }
        ensures stays { (fault : SealFault) → self.old.end ≡ Some fault → (self.new ≡ self.old) × (pieces.new.items ≡ pieces.old.items) }
        ensures held { length self.new.kept < LENGTH_BYTES + MOST_PIECE_BYTES + TAG_BYTES }
    {
        if let Some(fault) = self.end {
            return Err(fault);
        }
        let key = self.key;
        match take_all(alloc, &key, &mut self.coming, bytes, pieces) {
            Ok(()) => Ok(()),
            Err(fault) => {
                self.coming.bytes.clear();
                self.end = Some(fault);
                Err(fault)
            }
        }
    }

    /// Why nothing more is taken, if so.
    pub fn end(&self) -> Option<SealFault>
        ensures { result ≡ self.now.end }
    {
        self.end
    }
}
