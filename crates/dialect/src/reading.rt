//! Lines with any number of keys: each asks as many commands of the profile as its keys need.

ghost use Rattle.std.specs.Prelude.{◌≡◌, ◌≤◌, ◌+◌, ◌++◌, ◌∷◌, [], length, map, true, List, ℕ, IfOk, OnOk};
ghost use Rattle.std.specs.List.{list_all};
ghost use Rattle.std.specs.Option.{option_to_list};
ghost use Rattle.base.specs.Limits.{IsWithin};
ghost use Rattle.proto.specs.Key.{is_key};
ghost use Rattle.dialect.specs.Reading as spec;
ghost use Rattle.dialect.specs.Reading.{has_room as room_left};

use crate::line::ReadVerb;
use crate::turn::{Notice, Show, Turn};
use itoa::Buffer;
use proto::{Command, Key, Keys, MOST_KEYS, MOST_LINE_BYTES as MOST_PROFILE_BYTES, is_key_text};
use std::alloc::{AllocError, Global};
use std::mem;

/// Adds the turn, if there is one.
pub fn push_some(turn: Option<Turn>, turns: &mut Vec<Turn>) -> Result<(), AllocError>
    ensures { OnOk result (turns.new.items ≡ turns.old.items ++ option_to_list turn) }
{
    if let Some(turn) = turn {
        turns.push(turn)?;
    }
    Ok(())
}

/// The command of the profile that reads these keys.
fn read_command(reading: ReadVerb, keys: Keys) -> Command
    ensures { result ≡ spec.read_command reading keys }
{
    match reading {
        ReadVerb::Get => Command::Get(keys),
        ReadVerb::Gets => Command::Gets(keys),
        ReadVerb::Gat(exptime) => Command::Gat(exptime, keys),
        ReadVerb::Gats(exptime) => Command::Gats(exptime, keys),
    }
}

fn none_notice(reading: ReadVerb) -> Notice
    ensures { result ≡ spec.none_notice reading }
{
    match reading {
        ReadVerb::Get => Notice::UnknownName,
        ReadVerb::Gets => Notice::UnknownName,
        ReadVerb::Gat(_) => Notice::NoItems,
        ReadVerb::Gats(_) => Notice::NoItems,
    }
}

/// How many bytes a line of the profile has before its keys.
fn head_len(reading: ReadVerb) -> usize
    ensures bytes { result ≡ length (spec.head reading) }
    ensures short { result ≤ 45 }
{
    match reading {
        ReadVerb::Get => 3,
        ReadVerb::Gets => 4,
        ReadVerb::Gat(exptime) => 4 + Buffer::new().format(exptime).len(),
        ReadVerb::Gats(exptime) => 5 + Buffer::new().format(exptime).len(),
    }
}

fn are_keys(words: &[&[u8]]) -> bool
    ensures { result ≡ list_all is_key (map (λ w. w.now) words.now) }
{
    for word in words {
        if !is_key_text(word) {
            return false;
        }
    }
    true
}

fn one_key(alloc: Global, word: &[u8]) -> Result<Vec<Key>, AllocError>
    requires { is_key word.now ≡ true }
    ensures { IfOk result (λ keys. keys.items ≡ word.now ∷ []) }
{
    let mut keys = Vec::new(alloc);
    keys.push(Key::from_slice(alloc, word)?)?;
    Ok(keys)
}

/// The keys of a piece that has one, and how many bytes its line has.
fn first_key(alloc: Global, reading: ReadVerb, word: &[u8]) -> Result<(Vec<Key>, usize), AllocError>
    requires { is_key word.now ≡ true }
    ensures { IfOk result (λ r. (r.0.items ≡ word.now ∷ []) × spec.IsPiece reading r.0.items r.1) }
{
    let keys = one_key(alloc, word)?;
    Ok((keys, head_len(reading) + word.len() + 3))
}

/// Whether a piece of so many keys takes one more, so that its line has so many bytes.
fn has_room(keys: usize, bytes: usize) -> bool
    ensures { result ≡ room_left keys bytes }
{
    keys < MOST_KEYS && bytes <= MOST_PROFILE_BYTES
}

/// Adds a key to a piece, or the turn of the piece, so that the key begins the next one. How many bytes
/// the line of the piece has then.
fn push_key(
    alloc: Global,
    reading: ReadVerb,
    word: &[u8],
    keys: &mut Vec<Key>,
    bytes: usize,
    turns: &mut Vec<Turn>,
) -> Result<usize, AllocError>
    requires key { is_key word.now ≡ true }
    requires piece { spec.IsPiece reading keys.old.items bytes }
    ensures piece { IfOk result (λ bytes. spec.IsPiece reading keys.new.items bytes) }
    ensures turns { OnOk result ((more : List (List ℕ)) → turns.new.items ++ spec.piece_turns reading keys.new.items more
        ≡ turns.old.items ++ spec.piece_turns reading keys.old.items (word.now ∷ more)) }
{
    let longer = bytes + word.len() + 1;
    if has_room(keys.len(), longer) {
        keys.push(Key::from_slice(alloc, word)?)?;
        return Ok(longer);
    }
    let (first, bytes) = first_key(alloc, reading, word)?;
    let piece = mem::replace(keys, first);
    turns.push(Turn::Ask(read_command(reading, Keys::new(piece)), Show::Items))?;
    Ok(bytes)
}

/// Adds the turns for these keys, of which there is one more than the others.
fn push_pieces(
    alloc: Global,
    reading: ReadVerb,
    first: &[u8],
    others: &[&[u8]],
    turns: &mut Vec<Turn>,
) -> Result<(), AllocError>
    requires first { is_key first.now ≡ true }
    requires others { list_all is_key (map (λ w. w.now) others.now) ≡ true }
    ensures { OnOk result (turns.new.items ≡ turns.old.items ++ spec.piece_turns reading (first.now ∷ []) (map (λ w. w.now) others.now)) }
{
    let (mut keys, mut bytes) = first_key(alloc, reading, first)?;
    for word in others {
        bytes = push_key(alloc, reading, word, &mut keys, bytes, turns)?;
    }
    turns.push(Turn::Ask(read_command(reading, Keys::new(keys)), Show::Whole))?;
    Ok(())
}

/// Adds the turns of a line that reads the keys that these words are.
fn read_all(
    alloc: Global,
    reading: ReadVerb,
    words: &[&[u8]],
    turns: &mut Vec<Turn>,
) -> Result<(), AllocError>
    ensures { OnOk result (turns.new.items ≡ turns.old.items ++ spec.read_turns reading (map (λ w. w.now) words.now)) }
{
    let [first, others @ ..] = words else {
        turns.push(Turn::Say(none_notice(reading)))?;
        return Ok(());
    };
    if !are_keys(words) {
        turns.push(Turn::Say(Notice::BadFormat))?;
        return Ok(());
    }
    push_pieces(alloc, reading, first, others, turns)
}

/// The words of a line that are its keys: those after the exptime, if there is one.
fn keys_in<'a, 'b>(reading: ReadVerb, words: &'a [&'b [u8]]) -> &'a [&'b [u8]]
    ensures { map (λ w. w.now) result.now ≡ spec.keys_in reading (map (λ w. w.now) words.now) }
{
    let at = match reading {
        ReadVerb::Get => 0,
        ReadVerb::Gets => 0,
        ReadVerb::Gat(_) => 1,
        ReadVerb::Gats(_) => 1,
    };
    let (_, keys) = words.split_at(words.len().min(at));
    keys
}

/// Adds the turns of a line, by the words after its name.
pub fn read_keys(
    alloc: Global,
    reading: ReadVerb,
    words: &[&[u8]],
    turns: &mut Vec<Turn>,
) -> Result<(), AllocError>
    ensures { OnOk result (turns.new.items ≡ turns.old.items
        ++ spec.read_turns reading (spec.keys_in reading (map (λ w. w.now) words.now))) }
{
    read_all(alloc, reading, keys_in(reading, words), turns)
}
