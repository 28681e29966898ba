//! What a line asks.

ghost use Rattle.std.specs.Prelude.{◌≡◌, ◌<◌, ◌^◌, ◌++◌, ℤ, IfOk, OnOk, MatchResult, map, false};
ghost use Rattle.proto.specs.Line.{words, key_of as key_value, counting as counting_value};
ghost use Rattle.dialect.specs.Line as spec;
ghost use Rattle.dialect.specs.declared.line.Line.{Line as LineValue};
ghost use Rattle.dialect.specs.Meaning.{meaning, meaning_of_words, without_return as line_without_return, meaning_of_line};

use crate::line::{Line, Name, Opening, ReadVerb};
use crate::meta_line::meta_line;
use crate::name::name_of;
use crate::number::{block_size_of, exptime_of, flags_of, unsigned_in};
use crate::part::Part;
use crate::reading::{push_some, read_keys};
use crate::stats::{crawler_notice, stats_notice};
use crate::turn::{Notice, Show, Turn};
use proto::{Command, Header, Key, Kind, MOST_BLOCK_BYTES, StoreVerb, Update, is_key_text};
use std::alloc::{AllocError, Global};

/// The longest runs of bytes other than a space.
fn words_of<'a>(alloc: Global, line: &'a [u8]) -> Result<Vec<&'a [u8]>, AllocError>
    ensures { IfOk result (λ words_. map (λ w. w.now) words_.items ≡ words line.now) }
{
    line.split(|b| *b == 32)
        .filter(|w| !w.is_empty())
        .collect(alloc)
}

fn key_of(alloc: Global, word: &[u8]) -> Result<Option<Key>, AllocError>
    ensures { IfOk result (λ key. key ≡ key_value word.now) }
{
    if !is_key_text(word) {
        return Ok(None);
    }
    Ok(Some(Key::from_slice(alloc, word)?))
}

/// Whether the last word is `noreply`.
fn says_noreply(words: &[&[u8]]) -> bool
    ensures { result ≡ spec.says_noreply (map (λ w. w.now) words.now) }
{
    let mut quiet = false;
    for word in words {
        quiet = *word == b"noreply".as_slice();
    }
    quiet
}

pub fn said(quiet: bool, notice: Notice) -> Option<Turn>
    ensures { result ≡ spec.said quiet notice }
{
    if quiet { None } else { Some(Turn::Say(notice)) }
}

fn says_notice(quiet: bool, notice: Notice) -> Line
    ensures { result ≡ spec.says_notice quiet notice }
{
    Line::Gives(said(quiet, notice))
}

pub fn shown(quiet: bool) -> Show
    ensures { result ≡ spec.shown quiet }
{
    if quiet { Show::Quiet } else { Show::Whole }
}

fn asks_update(quiet: bool, update: Update) -> Line
    ensures { result ≡ spec.asks_update quiet update }
{
    Line::Gives(Some(Turn::Ask(Command::Update(update), shown(quiet))))
}

/// Whether there is at most one word.
fn is_end(words: &[&[u8]]) -> bool
    ensures { result ≡ spec.is_end (map (λ w. w.now) words.now) }
{
    match words {
        [] => true,
        [_] => true,
        _ => false,
    }
}

fn removes(kind: Kind) -> bool
    ensures { result ≡ spec.removes kind }
{
    match kind {
        Kind::Plain(StoreVerb::Set) => true,
        Kind::Plain(StoreVerb::Add) => false,
        Kind::Plain(StoreVerb::Replace) => false,
        Kind::Plain(StoreVerb::Append) => false,
        Kind::Plain(StoreVerb::Prepend) => false,
        Kind::Cas(_) => false,
    }
}

/// The turn of a storage line whose block is above the limit. What a `set` would have replaced is
/// removed: it must not be read as if the `set` had not been.
fn too_large(header: Header) -> Option<Turn>
    ensures { result ≡ spec.too_large header }
{
    let Header {
        kind,
        key,
        flags: _,
        exptime: _,
        size: _,
        quiet,
    } = header;
    if !removes(kind) {
        return said(quiet, Notice::TooLarge);
    }
    let show = if quiet {
        Show::Quiet
    } else {
        Show::Instead(Notice::TooLarge)
    };
    Some(Turn::Ask(Command::Update(Update::Delete { key }), show))
}

/// The reply to a storage line is shown, if the line does not say `noreply`.
fn opened(header: Header) -> Opening
    ensures { result ≡ spec.opened_by header }
{
    let show = shown(header.quiet);
    Opening { header, show }
}

/// A storage line with its size, and a header if all other words are correct.
fn sized(quiet: bool, size: u32, header: Option<Header>) -> Line
    requires { size < 2 ^ 31 }
    ensures { result ≡ spec.sized quiet size header }
{
    match header {
        None => Line::Skips(size + 2, said(quiet, Notice::BadFormat)),
        Some(header) if size as usize > MOST_BLOCK_BYTES => {
            Line::Skips(size + 2, too_large(header))
        }
        Some(header) => Line::Opens(opened(header)),
    }
}

/// What a storage line says beside the size of its block, if all of it is correct.
fn header_of(
    alloc: Global,
    quiet: bool,
    kind: Option<Kind>,
    key: &[u8],
    flags: &[u8],
    exptime: &[u8],
    size: u32,
) -> Result<Option<Header>, AllocError>
    ensures { IfOk result (λ header. header ≡ spec.header_of quiet kind key.now flags.now exptime.now size) }
{
    let (Some(kind), Some(flags), Some(exptime)) = (kind, flags_of(flags), exptime_of(exptime))
    else {
        return Ok(None);
    };
    let Some(key) = key_of(alloc, key)? else {
        return Ok(None);
    };
    Ok(Some(Header {
        kind,
        key,
        flags,
        exptime,
        size,
        quiet,
    }))
}

fn store_line(
    alloc: Global,
    verb: StoreVerb,
    quiet: bool,
    words: &[&[u8]],
) -> Result<Line, AllocError>
    ensures { IfOk result (λ l. l ≡ spec.store_line verb quiet (map (λ w. w.now) words.now)) }
{
    let [key, flags, exptime, size, last @ ..] = words else {
        return Ok(says_notice(quiet, Notice::UnknownName));
    };
    if !is_end(last) {
        return Ok(says_notice(quiet, Notice::UnknownName));
    }
    let Some(size) = block_size_of(size) else {
        return Ok(says_notice(quiet, Notice::BadFormat));
    };
    let kind = Some(Kind::Plain(verb));
    let header = header_of(alloc, quiet, kind, key, flags, exptime, size)?;
    Ok(sized(quiet, size, header))
}

fn cas_kind(word: &[u8]) -> Option<Kind>
    ensures { result ≡ spec.cas_kind word.now }
{
    Some(Kind::Cas(unsigned_in(word)?))
}

fn cas_line(alloc: Global, quiet: bool, words: &[&[u8]]) -> Result<Line, AllocError>
    ensures { IfOk result (λ l. l ≡ spec.cas_line quiet (map (λ w. w.now) words.now)) }
{
    let [key, flags, exptime, size, unique, last @ ..] = words else {
        return Ok(says_notice(quiet, Notice::UnknownName));
    };
    if !is_end(last) {
        return Ok(says_notice(quiet, Notice::UnknownName));
    }
    let Some(size) = block_size_of(size) else {
        return Ok(says_notice(quiet, Notice::BadFormat));
    };
    let header = header_of(alloc, quiet, cas_kind(unique), key, flags, exptime, size)?;
    Ok(sized(quiet, size, header))
}

fn is_delete_end(words: &[&[u8]]) -> bool
    ensures { result ≡ spec.is_delete_end (map (λ w. w.now) words.now) }
{
    match words {
        [] => true,
        [word] => *word == b"0".as_slice() || *word == b"noreply".as_slice(),
        [time, last] => *time == b"0".as_slice() && *last == b"noreply".as_slice(),
        _ => false,
    }
}

fn delete_of(alloc: Global, quiet: bool, key: &[u8], last: &[&[u8]]) -> Result<Line, AllocError>
    ensures { IfOk result (λ l. l ≡ spec.delete_of quiet key.now (map (λ w. w.now) last.now)) }
{
    if !is_delete_end(last) {
        return Ok(says_notice(quiet, Notice::BadDelete));
    }
    match key_of(alloc, key)? {
        None => Ok(says_notice(quiet, Notice::BadFormat)),
        Some(key) => Ok(asks_update(quiet, Update::Delete { key })),
    }
}

/// A `noreply` counts behind the key: `delete noreply` is answered.
fn delete_line(alloc: Global, words: &[&[u8]]) -> Result<Line, AllocError>
    ensures { IfOk result (λ l. l ≡ spec.delete_line (map (λ w. w.now) words.now)) }
{
    let [key, last @ ..] = words else {
        return Ok(says_notice(false, Notice::UnknownName));
    };
    delete_of(alloc, says_noreply(last), key, last)
}

fn touch_line(alloc: Global, quiet: bool, words: &[&[u8]]) -> Result<Line, AllocError>
    ensures { IfOk result (λ l. l ≡ spec.touch_line quiet (map (λ w. w.now) words.now)) }
{
    let [key, exptime, last @ ..] = words else {
        return Ok(says_notice(quiet, Notice::UnknownName));
    };
    if !is_end(last) {
        return Ok(says_notice(quiet, Notice::UnknownName));
    }
    let Some(key) = key_of(alloc, key)? else {
        return Ok(says_notice(quiet, Notice::BadFormat));
    };
    match exptime_of(exptime) {
        None => Ok(says_notice(quiet, Notice::BadExptime)),
        Some(exptime) => Ok(asks_update(quiet, Update::Touch { key, exptime })),
    }
}

fn counting(up: bool, key: Key, delta: u64) -> Update
    ensures { result ≡ counting_value up key delta }
{
    if up {
        Update::Incr { key, delta }
    } else {
        Update::Decr { key, delta }
    }
}

fn delta_line(alloc: Global, up: bool, quiet: bool, words: &[&[u8]]) -> Result<Line, AllocError>
    ensures { IfOk result (λ l. l ≡ spec.delta_line up quiet (map (λ w. w.now) words.now)) }
{
    let [key, delta, last @ ..] = words else {
        return Ok(says_notice(quiet, Notice::UnknownName));
    };
    if !is_end(last) {
        return Ok(says_notice(quiet, Notice::UnknownName));
    }
    let Some(key) = key_of(alloc, key)? else {
        return Ok(says_notice(quiet, Notice::BadFormat));
    };
    match unsigned_in(delta) {
        None => Ok(says_notice(quiet, Notice::BadDelta)),
        Some(delta) => Ok(asks_update(quiet, counting(up, key, delta))),
    }
}

fn verbosity_line(quiet: bool, words: &[&[u8]]) -> Line
    ensures { result ≡ spec.verbosity_line quiet (map (λ w. w.now) words.now) }
{
    let [level, last @ ..] = words else {
        return says_notice(quiet, Notice::UnknownName);
    };
    if !is_end(last) {
        return says_notice(quiet, Notice::UnknownName);
    }
    match unsigned_in(level) {
        None => says_notice(quiet, Notice::BadFormat),
        Some(_) => says_notice(quiet, Notice::Done),
    }
}

/// Whether the word names a version of HTTP.
fn is_http_version(word: &[u8]) -> bool
    ensures { result ≡ spec.is_http_version word.now }
{
    let (front, _) = word.split_at(word.len().min(5));
    front == b"HTTP/".as_slice()
}

fn http_line(words: &[&[u8]]) -> Line
    ensures { result ≡ spec.line_of Name.Http false (map (λ w. w.now) words.now) }
{
    for word in words {
        if is_http_version(word) {
            return Line::Closes(Notice::Http);
        }
    }
    says_notice(false, Notice::UnknownName)
}

/// The exptime of a `gat`, or what is said if there is none.
fn timed(words: &[&[u8]]) -> Result<i32, Notice>
    ensures { MatchResult result
        (λ exptime. (read : ℤ → LineValue) → spec.timed_line read (map (λ w. w.now) words.now) ≡ read exptime)
        (λ notice. (read : ℤ → LineValue) → spec.timed_line read (map (λ w. w.now) words.now) ≡ spec.says_notice false notice) }
{
    let [exptime, ..] = words else {
        return Err(Notice::UnknownName);
    };
    exptime_of(exptime).ok_or(Notice::BadExptime)
}

fn line_of(alloc: Global, name: Name, quiet: bool, words: &[&[u8]]) -> Result<Line, AllocError>
    ensures { IfOk result (λ l. l ≡ spec.line_of name quiet (map (λ w. w.now) words.now)) }
{
    Ok(match name {
        Name::Store(verb) => store_line(alloc, verb, quiet, words)?,
        Name::Cas => cas_line(alloc, quiet, words)?,
        Name::Get => Line::Reads(ReadVerb::Get),
        Name::Gets => Line::Reads(ReadVerb::Gets),
        Name::Gat => match timed(words) {
            Ok(exptime) => Line::Reads(ReadVerb::Gat(exptime)),
            Err(notice) => says_notice(false, notice),
        },
        Name::Gats => match timed(words) {
            Ok(exptime) => Line::Reads(ReadVerb::Gats(exptime)),
            Err(notice) => says_notice(false, notice),
        },
        Name::Delete => delete_line(alloc, words)?,
        Name::Touch => touch_line(alloc, quiet, words)?,
        Name::Incr => delta_line(alloc, true, quiet, words)?,
        Name::Decr => delta_line(alloc, false, quiet, words)?,
        Name::Version => says_notice(false, Notice::Version),
        Name::Quit => Line::Closes(Notice::Silent),
        Name::Verbosity => verbosity_line(quiet, words),
        Name::FlushAll => says_notice(quiet, Notice::FlushRefused),
        Name::Shutdown => says_notice(quiet, Notice::ShutdownRefused),
        Name::MetaNoop => says_notice(false, Notice::MetaNoop),
        Name::Stats => says_notice(false, stats_notice(words)),
        Name::Crawler => says_notice(false, crawler_notice(words)),
        Name::Meta(meta) => meta_line(alloc, meta, words)?,
        Name::Http => http_line(words),
    })
}

/// Adds the turns of a line, of which these are the words after the name. What is read next.
fn give(
    alloc: Global,
    line: Line,
    words: &[&[u8]],
    turns: &mut Vec<Turn>,
) -> Result<Part, AllocError>
    ensures turns { OnOk result (turns.new.items ≡ turns.old.items ++ (meaning_of_line line (map (λ w. w.now) words.now)).turns) }
    ensures part { IfOk result (λ part. part ≡ (meaning_of_line line (map (λ w. w.now) words.now)).part) }
{
    match line {
        Line::Gives(turn) => {
            push_some(turn, turns)?;
            Ok(Part::Line)
        }
        Line::Closes(notice) => {
            turns.push(Turn::Close(notice))?;
            Ok(Part::Closed)
        }
        Line::Reads(reading) => {
            read_keys(alloc, reading, words, turns)?;
            Ok(Part::Line)
        }
        Line::Opens(opening) => Ok(Part::Block(opening)),
        Line::Skips(size, turn) => Ok(Part::Unread(size, turn)),
    }
}

/// The line without a byte 13 at its end.
fn without_return(line: &[u8]) -> &[u8]
    ensures { result.now ≡ line_without_return line.now }
{
    if line.is_empty() || line[line.len() - 1] != 13 {
        return line;
    }
    let (front, _) = line.split_at(line.len() - 1);
    front
}

fn read_words(alloc: Global, words: &[&[u8]], turns: &mut Vec<Turn>) -> Result<Part, AllocError>
    ensures turns { OnOk result (turns.new.items ≡ turns.old.items ++ (meaning_of_words (map (λ w. w.now) words.now)).turns) }
    ensures part { IfOk result (λ part. part ≡ (meaning_of_words (map (λ w. w.now) words.now)).part) }
{
    let unknown = Line::Gives(Some(Turn::Say(Notice::UnknownName)));
    let [first, others @ ..] = words else {
        return give(alloc, unknown, words, turns);
    };
    match name_of(first) {
        None => give(alloc, unknown, others, turns),
        Some(name) => {
            let line = line_of(alloc, name, says_noreply(others), others)?;
            give(alloc, line, others, turns)
        }
    }
}

/// Adds the turns of a line, by its bytes before the newline. What is read next.
#[tactic(auto, unfolding(crate::specs::Meaning::meaning))]
pub fn read_line(alloc: Global, line: &[u8], turns: &mut Vec<Turn>) -> Result<Part, AllocError>
    ensures turns { OnOk result (turns.new.items ≡ turns.old.items ++ (meaning line.now).turns) }
    ensures part { IfOk result (λ part. part ≡ (meaning line.now).part) }
{
    let words = words_of(alloc, without_return(line))?;
    read_words(alloc, words.as_slice(), turns)
}
