//! The flags of the lines of meta commands.

ghost use Rattle.std.specs.Prelude.{◌≡◌, ◌++◌, ◌||◌, if◌then◌else◌, None, Some, map, codes, bytes_eq, IfOk};
ghost use Rattle.std.specs.List.{filter_map};
ghost use Rattle.std.specs.Option.{option_map};
ghost use Rattle.dialect.specs.Meta as spec;
ghost use Rattle.dialect.specs.declared.meta.Field.TheVariants as part;

use crate::meta::{Field, Fields, Flag, MOST_OPAQUE_BYTES, Meta, MetaShow, Word};
use crate::number::{exptime_of, flags_of, unsigned_in};
use crate::turn::Notice;
use proto::{Key, StoreVerb};
use std::alloc::{AllocError, Global};

/// The letter of a flag.
fn letter<'a>(word: &'a [u8]) -> &'a [u8]
    ensures { result.now ≡ spec.flag_letter word.now }
{
    let (first, _) = word.split_at(word.len().min(1));
    first
}

/// What follows the letter of a flag.
fn token<'a>(word: &'a [u8]) -> &'a [u8]
    ensures { result.now ≡ spec.flag_token word.now }
{
    let (_, others) = word.split_at(word.len().min(1));
    others
}

fn showing_flag(letter: &[u8]) -> Option<Flag>
    ensures { result ≡ spec.showing_flag letter.now }
{
    if letter == b"v".as_slice() {
        Some(Flag::Value)
    } else if letter == b"q".as_slice() {
        Some(Flag::Quiet)
    } else if letter == b"k".as_slice() {
        Some(Flag::Key)
    } else if letter == b"O".as_slice() {
        Some(Flag::Opaque)
    } else if letter == b"f".as_slice() {
        Some(Flag::ItemFlags)
    } else if letter == b"s".as_slice() {
        Some(Flag::Size)
    } else if letter == b"c".as_slice() {
        Some(Flag::Unique)
    } else {
        None
    }
}

fn is_ignored(letter: &[u8]) -> bool
    ensures { result ≡ (bytes_eq letter.now (codes "u") || bytes_eq letter.now (codes "P") || bytes_eq letter.now (codes "L")) }
{
    letter == b"u".as_slice() || letter == b"P".as_slice() || letter == b"L".as_slice()
}

fn telling_flag(letter: &[u8]) -> Option<Flag>
    ensures { result ≡ spec.telling_flag letter.now }
{
    if letter == b"T".as_slice() {
        Some(Flag::Exptime)
    } else if letter == b"F".as_slice() {
        Some(Flag::NewFlags)
    } else if letter == b"C".as_slice() {
        Some(Flag::Compare)
    } else if letter == b"D".as_slice() {
        Some(Flag::Delta)
    } else if letter == b"M".as_slice() {
        Some(Flag::Mode)
    } else if is_ignored(letter) {
        Some(Flag::Ignored)
    } else {
        None
    }
}

/// What a letter says.
fn flag_of(letter: &[u8]) -> Option<Flag>
    ensures { result ≡ spec.flag_of letter.now }
{
    showing_flag(letter).or(telling_flag(letter))
}

/// Whether some flag has this letter.
fn has(sought: &[u8], words: &[&[u8]]) -> bool
    ensures { result ≡ spec.has sought.now (map (λ w. w.now) words.now) }
{
    for word in words {
        if letter(word) == sought {
            return true;
        }
    }
    false
}

/// What follows this letter, in the first flag that has it.
fn token_behind<'a>(sought: &[u8], words: &'a [&'a [u8]]) -> Option<&'a [u8]>
    ensures { option_map (λ t. t.now) result ≡ spec.token_behind sought.now (map (λ w. w.now) words.now) }
{
    for word in words {
        if letter(word) == sought {
            return Some(token(word));
        }
    }
    None
}

/// How a fault of a flag is named: `md` and `ma` have one text for most.
fn named(meta: Meta, notice: Notice) -> Notice
    ensures { result ≡ spec.named meta notice }
{
    match meta {
        Meta::Get => notice,
        Meta::Set => notice,
        Meta::Delete => Notice::BadFlag,
        Meta::Count => Notice::BadFlag,
    }
}

/// Of `ma` the flag is refused: it can neither set an exptime nor name a unique.
fn unless_count(meta: Meta, fault: Option<Notice>) -> Option<Notice>
    ensures { result ≡ spec.unless_count meta fault }
{
    match meta {
        Meta::Count => Some(Notice::BadFlag),
        _ => fault,
    }
}

/// The mode of an `ms`.
fn verb_of_mode(token: &[u8]) -> Option<StoreVerb>
    ensures { result ≡ spec.verb_of_mode token.now }
{
    if token == b"S".as_slice() {
        Some(StoreVerb::Set)
    } else if token == b"E".as_slice() {
        Some(StoreVerb::Add)
    } else if token == b"R".as_slice() {
        Some(StoreVerb::Replace)
    } else if token == b"A".as_slice() {
        Some(StoreVerb::Append)
    } else if token == b"P".as_slice() {
        Some(StoreVerb::Prepend)
    } else {
        None
    }
}

/// The mode of an `ma`: whether it counts up.
fn direction_of(token: &[u8]) -> Option<bool>
    ensures { result ≡ spec.direction_of token.now }
{
    if token == b"I".as_slice() || token == b"+".as_slice() {
        Some(true)
    } else if token == b"D".as_slice() || token == b"-".as_slice() {
        Some(false)
    } else {
        None
    }
}

/// The notice, if something is missing.
fn missing(is_there: bool, notice: Notice) -> Option<Notice>
    ensures { result ≡ (if is_there then None else Some notice) }
{
    if is_there { None } else { Some(notice) }
}

fn mode_fault(meta: Meta, token: &[u8]) -> Option<Notice>
    ensures { result ≡ spec.mode_fault meta token.now }
{
    match meta {
        Meta::Get => None,
        Meta::Set => missing(verb_of_mode(token).is_some(), Notice::BadSetMode),
        Meta::Delete => None,
        Meta::Count => missing(direction_of(token).is_some(), Notice::BadCountMode),
    }
}

fn token_fault(meta: Meta, flag: Flag, token: &[u8]) -> Option<Notice>
    ensures { result ≡ spec.token_fault meta flag token.now }
{
    let bad_token = named(meta, Notice::BadToken);
    let bad_format = named(meta, Notice::BadFormat);
    let bad_delta = named(meta, Notice::BadDeltaValue);
    match flag {
        Flag::Opaque => missing(token.len() <= MOST_OPAQUE_BYTES, Notice::OpaqueTooLong),
        Flag::Unique => unless_count(meta, None),
        Flag::Exptime => unless_count(meta, missing(exptime_of(token).is_some(), bad_token)),
        Flag::NewFlags => missing(unsigned_in(token).is_some(), bad_format),
        Flag::Compare => unless_count(meta, missing(unsigned_in(token).is_some(), bad_token)),
        Flag::Delta => missing(unsigned_in(token).is_some(), bad_delta),
        Flag::Mode if token.len() == 1 => mode_fault(meta, token),
        Flag::Mode => Some(named(meta, Notice::BadModeLength)),
        _ => None,
    }
}

fn flag_fault(meta: Meta, word: &[u8]) -> Option<Notice>
    ensures { result ≡ spec.flag_fault meta word.now }
{
    match flag_of(letter(word)) {
        None => Some(named(meta, Notice::UnknownFlag)),
        Some(flag) => token_fault(meta, flag, token(word)),
    }
}

/// The first fault of some flags. No letter may come twice.
pub fn first_fault(meta: Meta, words: &[&[u8]]) -> Option<Notice>
    ensures { result ≡ spec.first_fault meta (map (λ w. w.now) words.now) }
{
    let mut left = words;
    while let [word, others @ ..] = left {
        if has(letter(word), others) {
            return Some(named(meta, Notice::DuplicateFlag));
        }
        if let Some(notice) = flag_fault(meta, word) {
            return Some(notice);
        }
        left = others;
    }
    None
}

/// What a flag asks to be shown.
fn field_of(alloc: Global, meta: Meta, key: &Key, word: &[u8]) -> Result<Option<Field>, AllocError>
    ensures { IfOk result (λ field. field ≡ spec.field_of meta key.now word.now) }
{
    Ok(match flag_of(letter(word)) {
        Some(Flag::Key) => Some(key_field(alloc, key)?),
        Some(Flag::Opaque) => Some(Field::Word(Word::new(Vec::from_slice(alloc, word)?))),
        Some(Flag::ItemFlags) => Some(Field::Flags),
        Some(Flag::Size) => Some(Field::Size),
        Some(Flag::Unique) => unique_field(alloc, meta)?,
        _ => None,
    })
}

/// `k` with the key.
fn key_field(alloc: Global, key: &Key) -> Result<Field, AllocError>
    ensures { IfOk result (λ field. field ≡ part.Word (codes "k" ++ key.now)) }
{
    let mut word = Vec::with_capacity(alloc, key.as_slice().len() + 1)?;
    word.extend_from_slice(b"k".as_slice())?;
    word.extend_from_slice(key.as_slice())?;
    Ok(Field::Word(Word::new(word)))
}

fn unique_field(alloc: Global, meta: Meta) -> Result<Option<Field>, AllocError>
    ensures { IfOk result (λ field. field ≡ spec.unique_field meta) }
{
    Ok(match meta {
        Meta::Get => Some(Field::Unique),
        Meta::Set => Some(Field::Word(Word::new(Vec::from_slice(alloc, b"c0".as_slice())?))),
        Meta::Delete => None,
        Meta::Count => None,
    })
}

fn fields_of(alloc: Global, meta: Meta, key: &Key, words: &[&[u8]]) -> Result<Fields, AllocError>
    ensures { IfOk result (λ fields. fields ≡ filter_map (spec.field_of meta key.now) (map (λ w. w.now) words.now)) }
{
    let mut fields = Fields::new(alloc);
    for word in words {
        if let Some(field) = field_of(alloc, meta, key, word)? {
            fields.push(field)?;
        }
    }
    Ok(fields)
}

/// What the client is shown, by the flags of the line.
pub fn meta_show(
    alloc: Global,
    meta: Meta,
    key: &Key,
    words: &[&[u8]],
) -> Result<MetaShow, AllocError>
    ensures { IfOk result (λ show. show ≡ spec.meta_show meta key.now (map (λ w. w.now) words.now)) }
{
    Ok(MetaShow {
        quiet: has(b"q".as_slice(), words),
        value: has(b"v".as_slice(), words),
        fields: fields_of(alloc, meta, key, words)?,
    })
}

pub fn exptime_in(words: &[&[u8]]) -> Option<i32>
    ensures { result ≡ spec.exptime_in (map (λ w. w.now) words.now) }
{
    exptime_of(token_behind(b"T".as_slice(), words)?)
}

pub fn flags_in(words: &[&[u8]]) -> Option<u32>
    ensures { result ≡ spec.flags_in (map (λ w. w.now) words.now) }
{
    flags_of(token_behind(b"F".as_slice(), words)?)
}

pub fn unique_in(words: &[&[u8]]) -> Option<u64>
    ensures { result ≡ spec.unique_in (map (λ w. w.now) words.now) }
{
    unsigned_in(token_behind(b"C".as_slice(), words)?)
}

pub fn delta_in(words: &[&[u8]]) -> Option<u64>
    ensures { result ≡ spec.delta_in (map (λ w. w.now) words.now) }
{
    unsigned_in(token_behind(b"D".as_slice(), words)?)
}

pub fn verb_in(words: &[&[u8]]) -> Option<StoreVerb>
    ensures { result ≡ spec.verb_in (map (λ w. w.now) words.now) }
{
    verb_of_mode(token_behind(b"M".as_slice(), words)?)
}

pub fn direction_in(words: &[&[u8]]) -> Option<bool>
    ensures { result ≡ spec.direction_in (map (λ w. w.now) words.now) }
{
    direction_of(token_behind(b"M".as_slice(), words)?)
}
