//! What `stats` and `stats settings` show of the figures.

ghost use Rattle.std.specs.Prelude.{◌≡◌, ◌++◌, OnOk, IfOk, map, decimal};
ghost use Rattle.grammar.specs.Stats as spec;

use figures::{Commands, Figures, Kind, Outcome, Refusal, plus};
use itoa::Buffer;
use std::alloc::{AllocError, Global};
use std::marker::Model;

/// The text of an answer to `stats`, made when its line was read.
pub struct StatsText {
    bytes: Vec<u8>,
}

impl Drop for StatsText {
    fn drop(self) {
        let StatsText { bytes: _ } = self;
    }
}

impl Model for StatsText {
    ghost use Rattle.std.specs.Prelude.{List, ℕ};

    ghost Value = { List ℕ };

    ghost view = { λ t. t.bytes.items };
}

impl StatsText {
    /// The bytes that are given.
    pub fn as_slice(&self) -> &[u8]
        ensures { result.now ≡ self.now }
    {
        self.bytes.as_slice()
    }
}

/// Adds the line of a value.
#[tactic(auto, unfolding(crate::specs::Stats::stat_line))]
fn put(name: &[u8], value: &[u8], out: &mut Vec<u8>) -> Result<(), AllocError>
    ensures { OnOk result (out.new.items ≡ out.old.items ++ spec.stat_line name.now value.now) }
{
    out.extend_from_slice(b"STAT ".as_slice())?;
    out.extend_from_slice(name)?;
    out.extend_from_slice(b" ".as_slice())?;
    out.extend_from_slice(value)?;
    out.extend_from_slice(b"\r\n".as_slice())
}

/// Adds the line of each of these words.
fn put_words(rows: &[(&[u8], &[u8])], out: &mut Vec<u8>) -> Result<(), AllocError>
    ensures { OnOk result (out.new.items ≡ out.old.items ++ spec.word_lines (map (λ r. (r.0.now, r.1.now)) rows.now)) }
{
    for row in rows {
        put(row.0, row.1, out)?;
    }
    Ok(())
}

/// Adds the line of a number.
fn put_number(name: &[u8], number: u64, out: &mut Vec<u8>) -> Result<(), AllocError>
    ensures { OnOk result (out.new.items ≡ out.old.items ++ spec.stat_line name.now (decimal number)) }
{
    put(name, Buffer::new().format(number).as_bytes(), out)
}

/// Adds the line of each of these numbers.
fn put_numbers(rows: &[(&[u8], u64)], out: &mut Vec<u8>) -> Result<(), AllocError>
    ensures { OnOk result (out.new.items ≡ out.old.items ++ spec.number_lines (map (λ r. (r.0.now, r.1)) rows.now)) }
{
    for row in rows {
        put_number(row.0, row.1, out)?;
    }
    Ok(())
}

/// A server has a thread for sockets and one that works. Those that run a batch come and go.
const THREADS: u64 = 2;

#[tactic(auto, unfolding(crate::specs::Stats::process_numbers))]
fn put_process(figures: &Figures, out: &mut Vec<u8>) -> Result<(), AllocError>
    ensures { OnOk result (out.new.items ≡ out.old.items ++ spec.number_lines (spec.process_numbers figures.now)) }
{
    let now = plus(figures.process.started, figures.uptime_seconds);
    let rows: [(&[u8], u64); 5] = [
        (b"pid", figures.process.id),
        (b"uptime", figures.uptime_seconds),
        (b"time", now),
        (b"pointer_size", 64),
        (b"threads", THREADS),
    ];
    put_numbers(rows.as_slice(), out)
}

#[tactic(auto, unfolding(crate::specs::Stats::connection_numbers))]
fn put_connections(figures: &Figures, out: &mut Vec<u8>) -> Result<(), AllocError>
    ensures { OnOk result (out.new.items ≡ out.old.items ++ spec.number_lines (spec.connection_numbers figures.now)) }
{
    let connections = &figures.connections;
    let rows: [(&[u8], u64); 6] = [
        (b"max_connections", figures.limits.connections),
        (b"curr_connections", connections.open),
        (b"total_connections", connections.accepted),
        (b"rejected_connections", connections.refused),
        (b"bytes_read", connections.bytes_read),
        (b"bytes_written", connections.bytes_written),
    ];
    put_numbers(rows.as_slice(), out)
}

/// How many storage commands of this kind were answered.
#[tactic(auto, unfolding(crate::specs::Stats::storage_count))]
fn storage_count(commands: &Commands, kind: Kind) -> u64
    ensures { result ≡ spec.storage_count commands.now kind }
{
    let stored = commands.count_of(kind, Outcome::Stored);
    let not_stored = commands.count_of(kind, Outcome::NotStored);
    let exists = commands.count_of(kind, Outcome::Exists);
    let not_found = commands.count_of(kind, Outcome::NotFound);
    let too_large = commands.count_of(kind, Outcome::TooLarge);
    plus(
        plus(plus(stored, not_stored), plus(exists, not_found)),
        too_large,
    )
}

/// How many storage commands were answered.
#[tactic(auto, unfolding(crate::specs::Stats::all_stored))]
fn all_stored(commands: &Commands) -> u64
    ensures { result ≡ spec.all_stored commands.now }
{
    let set = plus(
        storage_count(commands, Kind::Set),
        storage_count(commands, Kind::Add),
    );
    let added = plus(
        storage_count(commands, Kind::Append),
        storage_count(commands, Kind::Prepend),
    );
    let changed = plus(
        storage_count(commands, Kind::Replace),
        storage_count(commands, Kind::Cas),
    );
    plus(plus(set, added), changed)
}

#[tactic(auto, unfolding(crate::specs::Stats::get_numbers))]
fn put_gets(figures: &Figures, out: &mut Vec<u8>) -> Result<(), AllocError>
    ensures { OnOk result (out.new.items ≡ out.old.items ++ spec.number_lines (spec.get_numbers figures.now)) }
{
    let keys = figures.keys;
    let rows: [(&[u8], u64); 5] = [
        (b"cmd_get", keys.asked),
        (b"cmd_set", all_stored(&figures.commands)),
        (b"cmd_flush", 0),
        (b"get_hits", keys.found),
        (b"get_misses", keys.asked.saturating_sub(keys.found)),
    ];
    put_numbers(rows.as_slice(), out)
}

#[tactic(auto, unfolding(crate::specs::Stats::touch_numbers))]
fn put_touches(commands: &Commands, out: &mut Vec<u8>) -> Result<(), AllocError>
    ensures { OnOk result (out.new.items ≡ out.old.items ++ spec.number_lines (spec.touch_numbers commands.now)) }
{
    let hits = commands.count_of(Kind::Touch, Outcome::Touched);
    let misses = commands.count_of(Kind::Touch, Outcome::NotFound);
    let rows: [(&[u8], u64); 3] = [
        (b"cmd_touch", plus(hits, misses)),
        (b"touch_hits", hits),
        (b"touch_misses", misses),
    ];
    put_numbers(rows.as_slice(), out)
}

#[tactic(auto, unfolding(crate::specs::Stats::counter_numbers))]
fn put_counters(commands: &Commands, out: &mut Vec<u8>) -> Result<(), AllocError>
    ensures { OnOk result (out.new.items ≡ out.old.items ++ spec.number_lines (spec.counter_numbers commands.now)) }
{
    let rows: [(&[u8], u64); 6] = [
        (
            b"delete_misses",
            commands.count_of(Kind::Delete, Outcome::NotFound),
        ),
        (
            b"delete_hits",
            commands.count_of(Kind::Delete, Outcome::Deleted),
        ),
        (
            b"incr_misses",
            commands.count_of(Kind::Incr, Outcome::NotFound),
        ),
        (
            b"incr_hits",
            commands.count_of(Kind::Incr, Outcome::Counted),
        ),
        (
            b"decr_misses",
            commands.count_of(Kind::Decr, Outcome::NotFound),
        ),
        (
            b"decr_hits",
            commands.count_of(Kind::Decr, Outcome::Counted),
        ),
    ];
    put_numbers(rows.as_slice(), out)
}

#[tactic(auto, unfolding(crate::specs::Stats::cas_numbers))]
fn put_cas(commands: &Commands, out: &mut Vec<u8>) -> Result<(), AllocError>
    ensures { OnOk result (out.new.items ≡ out.old.items ++ spec.number_lines (spec.cas_numbers commands.now)) }
{
    let rows: [(&[u8], u64); 3] = [
        (
            b"cas_misses",
            commands.count_of(Kind::Cas, Outcome::NotFound),
        ),
        (b"cas_hits", commands.count_of(Kind::Cas, Outcome::Stored)),
        (b"cas_badval", commands.count_of(Kind::Cas, Outcome::Exists)),
    ];
    put_numbers(rows.as_slice(), out)
}

fn put_commands(figures: &Figures, out: &mut Vec<u8>) -> Result<(), AllocError>
    ensures { OnOk result (out.new.items ≡ out.old.items ++ spec.command_lines figures.now) }
{
    put_gets(figures, out)?;
    put_touches(&figures.commands, out)?;
    put_counters(&figures.commands, out)?;
    put_cas(&figures.commands, out)
}

#[tactic(auto, unfolding(crate::specs::Stats::memory_numbers))]
fn put_memory(figures: &Figures, out: &mut Vec<u8>) -> Result<(), AllocError>
    ensures { OnOk result (out.new.items ≡ out.old.items ++ spec.number_lines (spec.memory_numbers figures.now)) }
{
    let refusals = &figures.refusals;
    let rows: [(&[u8], u64); 6] = [
        (b"store_too_large", refusals.of(Refusal::Large)),
        (b"store_no_memory", refusals.of(Refusal::Full)),
        (b"limit_maxbytes", figures.limits.item_bytes),
        (b"bytes", figures.memory.item_bytes),
        (b"curr_items", figures.memory.items),
        (b"evictions", 0),
    ];
    put_numbers(rows.as_slice(), out)
}

fn put_server(figures: &Figures, out: &mut Vec<u8>) -> Result<(), AllocError>
    ensures { OnOk result (out.new.items ≡ out.old.items ++ spec.server_lines figures.now) }
{
    put(b"version", b"1.6.18-eve-1", out)?;
    put_process(figures, out)?;
    put_connections(figures, out)
}

#[tactic(auto, unfolding(crate::specs::Stats::stats_text))]
fn put_figures(figures: &Figures, out: &mut Vec<u8>) -> Result<(), AllocError>
    ensures { OnOk result (out.new.items ≡ out.old.items ++ spec.stats_text figures.now) }
{
    put_server(figures, out)?;
    put_commands(figures, out)?;
    put_memory(figures, out)?;
    out.extend_from_slice(b"END\r\n".as_slice())
}

#[tactic(auto, unfolding(crate::specs::Stats::setting_numbers))]
fn put_setting_numbers(figures: &Figures, out: &mut Vec<u8>) -> Result<(), AllocError>
    ensures { OnOk result (out.new.items ≡ out.old.items ++ spec.number_lines (spec.setting_numbers figures.now)) }
{
    let rows: [(&[u8], u64); 3] = [
        (b"maxbytes", figures.limits.item_bytes),
        (b"maxconns", figures.limits.connections),
        (b"item_size_max", 1_048_576),
    ];
    put_numbers(rows.as_slice(), out)
}

#[tactic(auto, unfolding(crate::specs::Stats::setting_words))]
fn put_setting_words(out: &mut Vec<u8>) -> Result<(), AllocError>
    ensures { OnOk result (out.new.items ≡ out.old.items ++ spec.word_lines spec.setting_words) }
{
    let rows: [(&[u8], &[u8]); 4] = [
        (b"evictions", b"off"),
        (b"cas_enabled", b"yes"),
        (b"flush_enabled", b"no"),
        (b"dump_enabled", b"no"),
    ];
    put_words(rows.as_slice(), out)
}

#[tactic(auto, unfolding(crate::specs::Stats::settings_text))]
fn put_settings(figures: &Figures, out: &mut Vec<u8>) -> Result<(), AllocError>
    ensures { OnOk result (out.new.items ≡ out.old.items ++ spec.settings_text figures.now) }
{
    put_setting_numbers(figures, out)?;
    put_setting_words(out)?;
    out.extend_from_slice(b"END\r\n".as_slice())
}

/// What `stats` gives. The only error is a failed allocation.
pub fn stats_text(alloc: Global, figures: &Figures) -> Result<StatsText, AllocError>
    ensures { IfOk result (λ text. text ≡ spec.stats_text figures.now) }
{
    let mut bytes = Vec::new(alloc);
    put_figures(figures, &mut bytes)?;
    Ok(StatsText { bytes })
}

/// What `stats settings` gives. The only error is a failed allocation.
pub fn settings_text(alloc: Global, figures: &Figures) -> Result<StatsText, AllocError>
    ensures { IfOk result (λ text. text ≡ spec.settings_text figures.now) }
{
    let mut bytes = Vec::new(alloc);
    put_settings(figures, &mut bytes)?;
    Ok(StatsText { bytes })
}
