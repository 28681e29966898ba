//! The lines of the log.

use crate::report::Due;
use crate::settings::{DataSettings, Listen, Settings};
use figures::{Figures, NodeFigures, Refusal, Refusals, Replicas, VERSION};
use log::{Log, info, warn};
use std::fmt::Display;
use std::net::SocketAddr;

/// All lines are of one program, so they name no module.
pub const NO_TARGET: &str = "";

/// What a word of the log ends with that is of so many things.
fn ending_of(count: u64) -> &'static str {
    if count == 1 { "" } else { "s" }
}

/// Tells what runs, as it begins.
pub fn tell_start<R: Log>(rt: &R, settings: &Settings) {
    let (u, connections) = (settings.u, settings.connections);
    let ending = ending_of(u64::from(connections));
    info!(rt; target: NO_TARGET, "eve_cached {VERSION} with u {u}: at most {connections} connection{ending}");
    if settings.max_bytes != 0 {
        let bytes = settings.max_bytes;
        let ending = ending_of(bytes);
        info!(rt; target: NO_TARGET, "nothing more is stored while the items have more than {bytes} byte{ending}");
    }
    if settings.idle != 0 {
        let seconds = settings.idle;
        let ending = ending_of(u64::from(seconds));
        info!(rt; target: NO_TARGET, "a connection on which nothing happens for {seconds} second{ending} is closed");
    }
    if let Some(data) = &settings.data {
        tell_folders(rt, data);
    }
}

/// Tells where what is answered is saved first.
fn tell_folders<R: Log>(rt: &R, data: &DataSettings) {
    let synced = if data.syncs { "" } else { ", without syncs" };
    match data.paths.as_slice() {
        [path] => info!(rt; target: NO_TARGET, "what is answered is saved in {path} first{synced}"),
        paths => {
            let count = paths.len();
            info!(rt; target: NO_TARGET, "what is answered is saved first in more than half of {count} folders{synced}");
            for path in paths {
                info!(rt; target: NO_TARGET, "a copy is in {path}");
            }
        }
    }
}

/// Tells that a folder could not be read as it was, and what is done about it.
pub fn tell_trouble<R: Log, D: Display>(rt: &R, path: &str, why: &D, is_renewed: bool) {
    if is_renewed {
        warn!(rt; target: NO_TARGET, "{path}: {why}; it is made anew from the other folders");
    } else {
        warn!(rt; target: NO_TARGET, "{path}: {why}; it is not used before the next start");
    }
}

/// Tells that a folder does not have the last save, and why.
pub fn tell_behind<R: Log, D: Display>(rt: &R, path: &str, why: &D) {
    warn!(rt; target: NO_TARGET, "{path} does not have the last save: {why}");
}

/// Tells that each folder has the last save again.
pub fn tell_current<R: Log>(rt: &R) {
    info!(rt; target: NO_TARGET, "each folder has the last save again");
}

/// Tells how many items were saved before it began, or that nothing was.
pub fn tell_begun<R: Log>(rt: &R, items: Option<u64>) {
    match items {
        Some(items) => {
            let ending = ending_of(items);
            info!(rt; target: NO_TARGET, "it goes on from what was saved: {items} item{ending}");
        }
        None => info!(rt; target: NO_TARGET, "nothing was saved before"),
    }
}

/// Tells why nothing is answered: it cannot be saved.
pub fn tell_unsaved<R: Log, D: Display>(rt: &R, why: &D) {
    warn!(rt; target: NO_TARGET, "nothing is answered, since it cannot be saved: {why}");
}

/// Tells that what is answered is saved again, after so many seconds.
pub fn tell_saved_again<R: Log>(rt: &R, seconds: u64) {
    let ending = ending_of(seconds);
    info!(rt; target: NO_TARGET, "it is saved and answered again, after {seconds} second{ending}");
}

/// Tells that fewer files may be open than so many connections take, so that fewer of these are served.
pub fn tell_few_files<R: Log>(rt: &R, files: u64, needed: u64, served: u64) {
    warn!(rt; target: NO_TARGET, "at most {files} files may be open, and {needed} may be needed: at most {served} connections are served; raise LimitNOFILE, or ulimit -n");
}

/// Tells where its figures are shown.
pub fn tell_status<R: Log>(rt: &R, address: SocketAddr) {
    info!(rt; target: NO_TARGET, "figures on http://{address}/");
}

/// Tells where clients are served.
pub fn tell_listening<R: Log>(rt: &R, listen: &Listen) {
    match listen {
        Listen::Tcp(address) => info!(rt; target: NO_TARGET, "listening on {address}"),
        Listen::Unix(path) => info!(rt; target: NO_TARGET, "listening on unix:{path}"),
    }
}

/// How many of these nodes are up.
fn up(nodes: &[NodeFigures]) -> usize {
    nodes.iter().filter(|node| node.is_up).count()
}

/// Tells of nodes that stopped and came back.
fn tell_nodes<R: Log>(rt: &R, due: Due, replicas: &Replicas) {
    let members = replicas.members;
    let executors = up(replicas.executors.as_slice());
    let verifiers = up(replicas.verifiers.as_slice());
    if let Some(count) = due.stops {
        warn!(rt; target: NO_TARGET, "nodes stopped: {count}; up are {executors} of {members} executors, {verifiers} of {members} verifiers");
    }
    if let Some(count) = due.returns {
        info!(rt; target: NO_TARGET, "nodes back: {count}; up are {executors} of {members} executors, {verifiers} of {members} verifiers");
    }
}

/// Tells of connections.
fn tell_connections<R: Log>(rt: &R, due: Due) {
    if let Some(count) = due.refused {
        warn!(rt; target: NO_TARGET, "connections refused, since as many as allowed are open: {count}");
    }
    if let Some(count) = due.failed {
        warn!(rt; target: NO_TARGET, "accepting a connection failed, since descriptors or memory are at their limit: {count}");
    }
    if let Some(count) = due.idle {
        info!(rt; target: NO_TARGET, "connections closed, since nothing happened on them: {count}");
    }
}

/// Tells of lines that were refused, and how many were since the start for each reason.
fn tell_lines<R: Log>(rt: &R, due: Due, refusals: &Refusals) {
    let Some(count) = due.lines else {
        return;
    };
    let unknown = refusals.of(Refusal::Unknown);
    let format = refusals.of(Refusal::Format);
    let number = refusals.of(Refusal::Number);
    let chunk = refusals.of(Refusal::Chunk);
    let long = refusals.of(Refusal::Long);
    let large = refusals.of(Refusal::Large);
    let binary = refusals.of(Refusal::Binary);
    let http = refusals.of(Refusal::Http);
    let forbidden = refusals.of(Refusal::Forbidden);
    let full = refusals.of(Refusal::Full);
    warn!(rt; target: NO_TARGET, "lines refused: {count}; since the start {unknown} unknown, {format} format, {number} number, {chunk} chunk, {long} long, {large} large, {binary} binary, {http} http, {forbidden} forbidden, {full} full");
}

/// Tells what is due.
pub fn tell<R: Log>(rt: &R, due: Due, figures: &Figures) {
    tell_nodes(rt, due, &figures.replicas);
    if let Some(count) = due.suspicions {
        warn!(rt; target: NO_TARGET, "suspicions of a leader: {count}");
    }
    if let Some(count) = due.rollbacks {
        warn!(rt; target: NO_TARGET, "batches rolled back: {count}");
    }
    if let Some(count) = due.memory {
        warn!(rt; target: NO_TARGET, "memory refused, and something left undone: {count}");
    }
    tell_connections(rt, due);
    tell_lines(rt, due, &figures.refusals);
}
