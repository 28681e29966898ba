//! The names of commands.

ghost use Rattle.std.specs.Prelude.{◌≡◌};
ghost use Rattle.proto.specs.Line.{verb_of as verb_value};
ghost use Rattle.dialect.specs.Name as spec;

use crate::line::Name;
use crate::meta::Meta;
use proto::StoreVerb;

fn verb_of(word: &[u8]) -> Option<StoreVerb>
    ensures { result ≡ verb_value word.now }
{
    if word == b"set".as_slice() {
        Some(StoreVerb::Set)
    } else if word == b"add".as_slice() {
        Some(StoreVerb::Add)
    } else if word == b"replace".as_slice() {
        Some(StoreVerb::Replace)
    } else if word == b"append".as_slice() {
        Some(StoreVerb::Append)
    } else if word == b"prepend".as_slice() {
        Some(StoreVerb::Prepend)
    } else {
        None
    }
}

/// The names of commands with keys, and no block.
fn key_name_of(word: &[u8]) -> Option<Name>
    ensures { result ≡ spec.key_name_of word.now }
{
    if word == b"delete".as_slice() {
        Some(Name::Delete)
    } else if word == b"touch".as_slice() {
        Some(Name::Touch)
    } else if word == b"incr".as_slice() {
        Some(Name::Incr)
    } else if word == b"decr".as_slice() {
        Some(Name::Decr)
    } else if word == b"gat".as_slice() {
        Some(Name::Gat)
    } else if word == b"gats".as_slice() {
        Some(Name::Gats)
    } else {
        None
    }
}

fn keyless_name_of(word: &[u8]) -> Option<Name>
    ensures { result ≡ spec.keyless_name_of word.now }
{
    if word == b"version".as_slice() {
        Some(Name::Version)
    } else if word == b"quit".as_slice() {
        Some(Name::Quit)
    } else if word == b"verbosity".as_slice() {
        Some(Name::Verbosity)
    } else if word == b"flush_all".as_slice() {
        Some(Name::FlushAll)
    } else if word == b"shutdown".as_slice() {
        Some(Name::Shutdown)
    } else if word == b"stats".as_slice() {
        Some(Name::Stats)
    } else if word == b"lru_crawler".as_slice() {
        Some(Name::Crawler)
    } else if word == b"GET".as_slice() || word == b"POST".as_slice() {
        Some(Name::Http)
    } else {
        None
    }
}

fn meta_name_of(word: &[u8]) -> Option<Name>
    ensures { result ≡ spec.meta_name_of word.now }
{
    if word == b"mg".as_slice() {
        Some(Name::Meta(Meta::Get))
    } else if word == b"ms".as_slice() {
        Some(Name::Meta(Meta::Set))
    } else if word == b"md".as_slice() {
        Some(Name::Meta(Meta::Delete))
    } else if word == b"ma".as_slice() {
        Some(Name::Meta(Meta::Count))
    } else if word == b"mn".as_slice() {
        Some(Name::MetaNoop)
    } else {
        None
    }
}

pub fn name_of(word: &[u8]) -> Option<Name>
    ensures { result ≡ spec.name_of word.now }
{
    // Most words are these two, so they are asked for first.
    if word == b"get".as_slice() {
        return Some(Name::Get);
    }
    if word == b"gets".as_slice() {
        return Some(Name::Gets);
    }
    if word == b"cas".as_slice() {
        return Some(Name::Cas);
    }
    if let Some(verb) = verb_of(word) {
        return Some(Name::Store(verb));
    }
    key_name_of(word).or(keyless_name_of(word).or(meta_name_of(word)))
}
