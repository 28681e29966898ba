//! What `stats` gives, of chosen figures.

use crate::told::plain;
use figures::{Asked, Figures, Kind};
use grammar::{Conditions, Dialect};
use proto::{Fault, Reply};
use session::Session;
use std::alloc::Global;
use std::test::Fail;

const STATS: &[u8] = b"STAT version 1.6.18-eve-1\r\n\
STAT pid 77\r\n\
STAT uptime 10\r\n\
STAT time 1700000010\r\n\
STAT pointer_size 64\r\n\
STAT threads 2\r\n\
STAT max_connections 1024\r\n\
STAT curr_connections 2\r\n\
STAT total_connections 3\r\n\
STAT rejected_connections 1\r\n\
STAT bytes_read 400\r\n\
STAT bytes_written 500\r\n\
STAT cmd_get 7\r\n\
STAT cmd_set 3\r\n\
STAT cmd_flush 0\r\n\
STAT get_hits 5\r\n\
STAT get_misses 2\r\n\
STAT cmd_touch 2\r\n\
STAT touch_hits 1\r\n\
STAT touch_misses 1\r\n\
STAT delete_misses 0\r\n\
STAT delete_hits 1\r\n\
STAT incr_misses 1\r\n\
STAT incr_hits 0\r\n\
STAT decr_misses 0\r\n\
STAT decr_hits 1\r\n\
STAT cas_misses 0\r\n\
STAT cas_hits 0\r\n\
STAT cas_badval 1\r\n\
STAT store_too_large 0\r\n\
STAT store_no_memory 0\r\n\
STAT limit_maxbytes 64000000\r\n\
STAT bytes 90\r\n\
STAT curr_items 4\r\n\
STAT evictions 0\r\n\
END\r\n";

const SETTINGS: &[u8] = b"STAT maxbytes 64000000\r\n\
STAT maxconns 1024\r\n\
STAT item_size_max 1048576\r\n\
STAT evictions off\r\n\
STAT cas_enabled yes\r\n\
STAT flush_enabled no\r\n\
STAT dump_enabled no\r\n\
END\r\n";

/// So many keys of a command of this kind, and what came of it.
fn answer(figures: &mut Figures, kind: Kind, keys: u64, reply: &Reply) {
    figures.answer(Asked { kind, keys }, reply);
}

/// The commands that were answered.
fn add_commands(figures: &mut Figures) {
    answer(figures, Kind::Set, 0, &Reply::Stored);
    answer(figures, Kind::Add, 0, &Reply::NotStored);
    answer(figures, Kind::Cas, 0, &Reply::Exists);
    answer(figures, Kind::Touch, 0, &Reply::Touched);
    answer(figures, Kind::Touch, 0, &Reply::NotFound);
    answer(figures, Kind::Delete, 0, &Reply::Deleted);
    answer(figures, Kind::Incr, 0, &Reply::NotFound);
    answer(figures, Kind::Decr, 0, &Reply::Number(9));
}

fn chosen() -> Conditions {
    let mut conditions = plain();
    let figures = &mut conditions.figures;
    figures.uptime_seconds = 10;
    figures.process.id = 77;
    figures.process.started = 1_700_000_000;
    figures.limits.connections = 1024;
    figures.limits.item_bytes = 64_000_000;
    figures.connections.open = 2;
    figures.connections.accepted = 3;
    figures.connections.refused = 1;
    figures.connections.bytes_read = 400;
    figures.connections.bytes_written = 500;
    figures.keys.asked = 7;
    figures.keys.found = 5;
    figures.memory.item_bytes = 90;
    figures.memory.items = 4;
    add_commands(figures);
    conditions
}

/// What a client is given that sends these bytes.
fn given(alloc: Global, bytes: &[u8]) -> Result<Vec<u8>, Fault> {
    let mut session = Session::new(alloc, Dialect::Memcached);
    session.feed(alloc, bytes, &mut chosen())
}

/// Whether it is given just this.
fn gives(alloc: Global, bytes: &[u8], expected: &[u8]) -> bool {
    match given(alloc, bytes) {
        Ok(given) => given.as_slice() == expected,
        Err(_) => false,
    }
}

#[test]
fn stats_show_the_figures(rt: HostRuntime) -> Result<(), Fail> {
    assert!(rt; gives(rt.alloc(), b"stats\r\n", STATS));
    Ok(())
}

#[test]
fn stats_settings_show_the_limits(rt: HostRuntime) -> Result<(), Fail> {
    assert!(rt; gives(rt.alloc(), b"stats settings\r\n", SETTINGS));
    Ok(())
}

#[test]
fn other_stats_are_as_the_dialect_has_them(rt: HostRuntime) -> Result<(), Fail> {
    let line = b"stats reset\r\nstats items\r\n".as_slice();
    assert!(rt; gives(rt.alloc(), line, b"RESET\r\nEND\r\n"));
    Ok(())
}
