//! Lines that the profile and memcached's dialect read differently.

use crate::told::plain;
use grammar::Dialect;
use proto::{Fault, Reply, Values};
use session::Session;
use std::alloc::Global;
use std::test::Fail;

/// So many commands are answered at most.
const MOST_COMMANDS: usize = 4;

/// 65 keys, one more than a command of the profile has.
const MANY_KEYS: &[u8] = b"get a b c d e f g h i j k l m n o p q r s t u v w x y z \
a b c d e f g h i j k l m n o p q r s t u v w x y z \
a b c d e f g h i j k l m\r\n";

/// The reply to a `get` that finds nothing.
fn nothing(alloc: Global) -> Reply {
    match Values::try_new(Vec::new(alloc)) {
        Some(values) => Reply::Values(values),
        None => Reply::NotFound,
    }
}

/// What a client is given that sends these bytes, if each command has this reply, and how many commands it asks.
fn talk(
    alloc: Global,
    dialect: Dialect,
    bytes: &[u8],
    reply: &Reply,
) -> Result<(Vec<u8>, u64), Fault> {
    let mut session = Session::new(alloc, dialect);
    let mut conditions = plain();
    let mut given = session.feed(alloc, bytes, &mut conditions)?;
    let mut asked = 0;
    for _ in 0..MOST_COMMANDS {
        let Some(ready) = session.take() else {
            break;
        };
        asked = ready.turn;
        let text = session.answer(alloc, ready.turn, reply)?;
        given.extend_from_slice(text.as_slice())?;
    }
    Ok((given, asked))
}

/// Whether the client is given just this, and asks so many commands.
fn is_given(
    alloc: Global,
    dialect: Dialect,
    bytes: &[u8],
    reply: &Reply,
    expected: &[u8],
    count: u64,
) -> bool {
    match talk(alloc, dialect, bytes, reply) {
        Ok((given, asked)) => given.as_slice() == expected && asked == count,
        Err(_) => false,
    }
}

/// Whether the client of each grammar is given just this, and asks so many commands.
fn are_given(
    alloc: Global,
    bytes: &[u8],
    reply: &Reply,
    memcached: (&[u8], u64),
    profile: (&[u8], u64),
) -> bool {
    let (given, asked) = memcached;
    let (given_by_profile, asked_of_profile) = profile;
    is_given(alloc, Dialect::Memcached, bytes, reply, given, asked)
        && is_given(
            alloc,
            Dialect::Profile,
            bytes,
            reply,
            given_by_profile,
            asked_of_profile,
        )
}

/// What a client of the profile is given for each line that it refuses.
const BAD: &[u8] = b"CLIENT_ERROR bad command line format\r\n";

/// What a client of the profile is given for three names that it does not know.
const THREE_UNKNOWN: &[u8] = b"ERROR\r\nERROR\r\nERROR\r\n";

#[test]
fn a_delete_with_a_time_is_one_of_the_dialect(rt: HostRuntime) -> Result<(), Fail> {
    let line = b"delete k 0\r\n".as_slice();
    let memcached = (b"DELETED\r\n".as_slice(), 1);
    assert!(rt; are_given(rt.alloc(), line, &Reply::Deleted, memcached, (BAD, 0)));
    Ok(())
}

#[test]
fn a_get_of_many_keys_is_asked_in_pieces(rt: HostRuntime) -> Result<(), Fail> {
    let none = nothing(rt.alloc());
    let memcached = (b"END\r\n".as_slice(), 2);
    assert!(rt; are_given(rt.alloc(), MANY_KEYS, &none, memcached, (BAD, 0)));
    Ok(())
}

#[test]
fn the_value_of_a_line_with_a_late_exptime_is_no_command(rt: HostRuntime) -> Result<(), Fail> {
    let lines = b"set k 0 4294967295 7\r\nversion\r\n".as_slice();
    let two = b"CLIENT_ERROR bad command line format\r\nVERSION eve-1\r\n".as_slice();
    let memcached = (b"STORED\r\n".as_slice(), 1);
    assert!(rt; are_given(rt.alloc(), lines, &Reply::Stored, memcached, (two, 0)));
    Ok(())
}

#[test]
fn a_quiet_meta_miss_gives_nothing(rt: HostRuntime) -> Result<(), Fail> {
    let none = nothing(rt.alloc());
    let lines = b"mg a v q k\r\nmg b k Ox\r\nmn\r\n".as_slice();
    let memcached = (b"EN kb Ox\r\nMN\r\n".as_slice(), 2);
    assert!(rt; are_given(rt.alloc(), lines, &none, memcached, (THREE_UNKNOWN, 0)));
    Ok(())
}

#[test]
fn a_noreply_line_of_the_dialect_gives_nothing(rt: HostRuntime) -> Result<(), Fail> {
    let lines = b"incr k x noreply\r\ndelete k noreply\r\nmn\r\n".as_slice();
    assert!(rt;
        is_given(
            rt.alloc(),
            Dialect::Memcached,
            lines,
            &Reply::Deleted,
            b"MN\r\n",
            1
        )
    );
    Ok(())
}

#[test]
fn each_grammar_has_its_version(rt: HostRuntime) -> Result<(), Fail> {
    let line = b"version\r\n".as_slice();
    let own = b"VERSION eve-1\r\n".as_slice();
    let memcached = (b"VERSION 1.6.18-eve-1\r\n".as_slice(), 0);
    assert!(rt; are_given(rt.alloc(), line, &Reply::Stored, memcached, (own, 0)));
    Ok(())
}

#[test]
fn nothing_is_read_after_a_quit(rt: HostRuntime) -> Result<(), Fail> {
    let lines = b"quit\r\nversion\r\n".as_slice();
    let none = b"".as_slice();
    let memcached = (none, 0);
    assert!(rt; are_given(rt.alloc(), lines, &Reply::Stored, memcached, (none, 0)));
    Ok(())
}
