//! The lines of meta commands.

ghost use Rattle.std.specs.Prelude.{◌≡◌, ◌<◌, ◌^◌, ◌∷◌, [], Some, map, IfOk};
ghost use Rattle.proto.specs.declared.command.Command.TheVariants as command;
ghost use Rattle.proto.specs.declared.command.Update.TheVariants as update;
ghost use Rattle.dialect.specs.Meta as spec;
ghost use Rattle.dialect.specs.declared.meta.Meta.TheVariants as meta;
ghost use Rattle.dialect.specs.declared.line.Line.TheVariants.{Gives};
ghost use Rattle.dialect.specs.declared.turn.Notice.TheVariants as notice;
ghost use Rattle.dialect.specs.declared.turn.Show.TheVariants as show;
ghost use Rattle.dialect.specs.declared.turn.Turn.TheVariants.{Ask};

use crate::line::{Line, Opening};
use crate::meta::{Meta, MetaShow};
use crate::meta_flags::{
    delta_in, direction_in, exptime_in, first_fault, flags_in, meta_show, unique_in, verb_in,
};
use crate::number::block_size_of;
use crate::turn::{Notice, Show, Turn};
use proto::{
    Block, Command, Header, Key, Keys, Kind, MOST_BLOCK_BYTES, StoreVerb, Update, is_key_text,
};
use std::alloc::{AllocError, Global};

fn says(notice: Notice) -> Line
    ensures { result ≡ spec.says_one notice }
{
    Line::Gives(Some(Turn::Say(notice)))
}

/// The key that the word is, if the flags have no fault.
#[tactic(auto, unfolding(crate::specs::Meta::checked))]
fn checked(
    alloc: Global,
    meta: Meta,
    word: &[u8],
    flags: &[&[u8]],
) -> Result<Result<Key, Notice>, AllocError>
    ensures { IfOk result (λ key. key ≡ spec.checked meta word.now (map (λ w. w.now) flags.now)) }
{
    if !is_key_text(word) {
        return Ok(Err(Notice::BadFormat));
    }
    if let Some(notice) = first_fault(meta, flags) {
        return Ok(Err(notice));
    }
    Ok(Ok(Key::from_slice(alloc, word)?))
}

fn one_key(alloc: Global, key: Key) -> Result<Keys, AllocError>
    ensures { IfOk result (λ keys. keys ≡ key ∷ []) }
{
    let mut keys = Vec::new(alloc);
    keys.push(key)?;
    Ok(Keys::new(keys))
}

fn get_command(alloc: Global, key: Key, flags: &[&[u8]]) -> Result<Command, AllocError>
    ensures { IfOk result (λ command. command ≡ spec.get_command key (map (λ w. w.now) flags.now)) }
{
    let keys = one_key(alloc, key)?;
    Ok(match exptime_in(flags) {
        None => Command::Gets(keys),
        Some(exptime) => Command::Gats(exptime, keys),
    })
}

/// If the unique of the item is named, an item that has expired takes its place: the same as a `delete`, for an item
/// of this unique alone.
fn delete_update(alloc: Global, key: Key, flags: &[&[u8]]) -> Result<Update, AllocError>
    ensures { IfOk result (λ update. update ≡ spec.delete_update key (map (λ w. w.now) flags.now)) }
{
    Ok(match unique_in(flags) {
        None => Update::Delete { key },
        Some(unique) => Update::Cas {
            key,
            flags: 0,
            exptime: -1,
            block: Block::from_slice(alloc, b"".as_slice())?,
            unique,
        },
    })
}

fn count_update(key: Key, flags: &[&[u8]]) -> Update
    ensures { result ≡ spec.count_update key (map (λ w. w.now) flags.now) }
{
    let delta = delta_in(flags).unwrap_or(1);
    if direction_in(flags).unwrap_or(true) {
        Update::Incr { key, delta }
    } else {
        Update::Decr { key, delta }
    }
}

fn comparing(verb: StoreVerb, unique: u64) -> Option<Kind>
    ensures { result ≡ spec.comparing verb unique }
{
    match verb {
        StoreVerb::Set => Some(Kind::Cas(unique)),
        StoreVerb::Add => Some(Kind::Plain(StoreVerb::Add)),
        StoreVerb::Replace => Some(Kind::Cas(unique)),
        StoreVerb::Append => None,
        StoreVerb::Prepend => None,
    }
}

/// The command of an `ms`. `None` if there is no such command of the profile: one that appends to a unique.
fn kind_in(flags: &[&[u8]]) -> Option<Kind>
    ensures { result ≡ spec.kind_in (map (λ w. w.now) flags.now) }
{
    let verb = verb_in(flags).unwrap_or(StoreVerb::Set);
    match unique_in(flags) {
        None => Some(Kind::Plain(verb)),
        Some(unique) => comparing(verb, unique),
    }
}

fn opening(
    alloc: Global,
    size: u32,
    key: Key,
    flags: &[&[u8]],
    kind: Kind,
) -> Result<Opening, AllocError>
    ensures { IfOk result (λ opening. opening ≡ spec.opening size key (map (λ w. w.now) flags.now) kind) }
{
    let show = meta_show(alloc, Meta::Set, &key, flags)?;
    Ok(Opening {
        header: Header {
            kind,
            key,
            flags: flags_in(flags).unwrap_or(0),
            exptime: exptime_in(flags).unwrap_or(0),
            size,
            quiet: false,
        },
        show: Show::Meta(show),
    })
}

fn opening_of(
    alloc: Global,
    size: u32,
    word: &[u8],
    flags: &[&[u8]],
) -> Result<Result<Opening, Notice>, AllocError>
    ensures { IfOk result (λ opening. opening ≡ spec.opening_of size (map (λ w. w.now) flags.now) (spec.checked meta.Set word.now (map (λ w. w.now) flags.now))) }
{
    let key = match checked(alloc, Meta::Set, word, flags)? {
        Err(notice) => return Ok(Err(notice)),
        Ok(key) => key,
    };
    match kind_in(flags) {
        None => Ok(Err(Notice::UnknownFlag)),
        Some(kind) => Ok(Ok(opening(alloc, size, key, flags, kind)?)),
    }
}

/// An `ms` whose block is above the limit: nothing of the item may stay.
fn too_large(opening: Opening) -> Turn
    ensures { result ≡ Ask (command.Update (update.Delete opening.header.key)) (show.Instead notice.TooLarge) }
{
    let Opening { header, show: _ } = opening;
    let Header {
        kind: _,
        key,
        flags: _,
        exptime: _,
        size: _,
        quiet: _,
    } = header;
    Turn::Ask(
        Command::Update(Update::Delete { key }),
        Show::Instead(Notice::TooLarge),
    )
}

fn sized_set(size: u32, opening: Result<Opening, Notice>) -> Line
    requires { size < 2 ^ 31 }
    ensures { result ≡ spec.sized_set size opening }
{
    match opening {
        Err(notice) => Line::Skips(size + 2, Some(Turn::Say(notice))),
        Ok(opening) if size as usize > MOST_BLOCK_BYTES => {
            Line::Skips(size + 2, Some(too_large(opening)))
        }
        Ok(opening) => Line::Opens(opening),
    }
}

#[tactic(auto, unfolding(crate::specs::Meta::key_line))]
fn set_line(alloc: Global, word: &[u8], words: &[&[u8]]) -> Result<Line, AllocError>
    ensures { IfOk result (λ l. l ≡ spec.key_line meta.Set word.now (map (λ w. w.now) words.now)) }
{
    let [size, flags @ ..] = words else {
        return Ok(says(Notice::BadFormat));
    };
    match block_size_of(size) {
        None => Ok(says(Notice::BadFormat)),
        Some(size) => Ok(sized_set(size, opening_of(alloc, size, word, flags)?)),
    }
}

/// The command is asked, and so much of its reply is shown.
fn asks(asked: Command, shown: MetaShow) -> Line
    ensures { result ≡ Gives (Some (Ask asked (show.Meta shown))) }
{
    Line::Gives(Some(Turn::Ask(asked, Show::Meta(shown))))
}

#[tactic(auto, unfolding(crate::specs::Meta::key_line))]
fn get_line(alloc: Global, word: &[u8], flags: &[&[u8]]) -> Result<Line, AllocError>
    ensures { IfOk result (λ l. l ≡ spec.key_line meta.Get word.now (map (λ w. w.now) flags.now)) }
{
    match checked(alloc, Meta::Get, word, flags)? {
        Err(notice) => Ok(says(notice)),
        Ok(key) => {
            let show = meta_show(alloc, Meta::Get, &key, flags)?;
            Ok(asks(get_command(alloc, key, flags)?, show))
        }
    }
}

#[tactic(auto, unfolding(crate::specs::Meta::key_line))]
fn delete_line(alloc: Global, word: &[u8], flags: &[&[u8]]) -> Result<Line, AllocError>
    ensures { IfOk result (λ l. l ≡ spec.key_line meta.Delete word.now (map (λ w. w.now) flags.now)) }
{
    match checked(alloc, Meta::Delete, word, flags)? {
        Err(notice) => Ok(says(notice)),
        Ok(key) => {
            let show = meta_show(alloc, Meta::Delete, &key, flags)?;
            let update = delete_update(alloc, key, flags)?;
            Ok(asks(Command::Update(update), show))
        }
    }
}

#[tactic(auto, unfolding(crate::specs::Meta::key_line))]
fn count_line(alloc: Global, word: &[u8], flags: &[&[u8]]) -> Result<Line, AllocError>
    ensures { IfOk result (λ l. l ≡ spec.key_line meta.Count word.now (map (λ w. w.now) flags.now)) }
{
    match checked(alloc, Meta::Count, word, flags)? {
        Err(notice) => Ok(says(notice)),
        Ok(key) => {
            let show = meta_show(alloc, Meta::Count, &key, flags)?;
            let update = count_update(key, flags);
            Ok(asks(Command::Update(update), show))
        }
    }
}

/// The line of a meta command, by the words after its name.
pub fn meta_line(alloc: Global, meta: Meta, words: &[&[u8]]) -> Result<Line, AllocError>
    ensures { IfOk result (λ l. l ≡ spec.meta_line meta (map (λ w. w.now) words.now)) }
{
    let [word, others @ ..] = words else {
        return Ok(says(Notice::UnknownName));
    };
    match meta {
        Meta::Get => get_line(alloc, word, others),
        Meta::Set => set_line(alloc, word, others),
        Meta::Delete => delete_line(alloc, word, others),
        Meta::Count => count_line(alloc, word, others),
    }
}
