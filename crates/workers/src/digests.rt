//! The digests of pages and of sessions, by several threads.

ghost use Rattle.std.specs.Prelude.{◌≡◌, ◌≤◌, length, map};
ghost use Rattle.std.specs.Thread.{IsSync};
ghost use Rattle.wire.specs.Session.{SessionsFit};
ghost use Rattle.token.specs.Digested.{AreDigested};
ghost use Rattle.pages.specs.Page.{refreshed};
ghost use Rattle.workers.specs.InOrder.{AreRefreshed};

use crate::workers::Workers;
use pages::Page;
use std::alloc::Global;
use std::thread;
use std::thread::Threads;
use token::{Digested, Form, HashedSessions};

/// To start a thread for less than this weight costs more than it spares.
const LEAST_WEIGHT: usize = 256;

/// To start a thread for the sessions of fewer clients than these costs more than it spares.
const LEAST_CLIENTS: usize = 1024;

/// What it costs to make the digests new that are not kept, in entries.
fn weight_of_all(pages: &[Page]) -> usize {
    pages
        .iter()
        .fold(0usize, |sum, page| sum.saturating_add(page.weight()))
}

/// How many of the pages, from the front, weigh at least so much: all if they weigh less.
fn place_of_weight(pages: &[Page], least: usize) -> usize
    ensures { result ≤ length pages.now }
{
    let mut sum = 0usize;
    for (index, page) in pages.iter().enumerate() {
        sum = sum.saturating_add(page.weight());
        if least <= sum {
            return index + 1;
        }
    }
    pages.len()
}

/// Makes each digest new that is not kept.
fn refresh_each<R: Threads + Sync>(rt: &R, pages: &mut [Page])
    ensures { AreRefreshed pages.old pages.new }
{
    thread::for_each_mut(rt, pages, 1, &|_, page| { page.refresh() });
}

/// Recomputes the digest of each page that was written, on the thread that calls.
#[tactic(auto, using(crate::proofs::InOrder::all_refreshed))]
fn refresh_in_turn<R: Threads + Sync>(rt: &R, pages: &mut [Page])
    ensures { pages.new ≡ map refreshed pages.old }
{
    refresh_each(rt, pages);
}

/// Recomputes the digest of each page that was written, by at most so many threads at once. The thread
/// that calls is one of them; the others have ended when the call returns. The pages that were written
/// may be close together, so pages are parted by what they weigh.
fn refresh_parted<R: Threads + Sync>(rt: &R, pages: &mut [Page], threads: usize)
    ensures { pages.new ≡ map refreshed pages.old }
{
    let weight = weight_of_all(pages);
    let busy = threads.min(weight / LEAST_WEIGHT);
    if busy < 2 {
        refresh_in_turn(rt, pages);
        return;
    }
    let ours = busy / 2;
    let others = busy - ours;
    let place = place_of_weight(pages, (weight / busy).saturating_mul(others));
    let (front, back) = pages.split_at_mut(place);
    thread::join_mut(
        rt,
        &mut ||
            requires { IsSync R.row }
            ensures { front.exit.now ≡ map refreshed front.entry.now }
        { refresh_parted(rt, front, others) },
        &mut ||
            requires { IsSync R.row }
            ensures { back.exit.now ≡ map refreshed back.entry.now }
        { refresh_parted(rt, back, ours) },
    );
}

/// How many threads the pages have if the digest of the sessions is worth a thread of its own;
/// `None` if it is not, or if there is but one thread.
fn beside_sessions(sessions: &HashedSessions, threads: usize) -> Option<usize> {
    if threads < 2 || sessions.sessions().entries().len() < LEAST_CLIENTS {
        return None;
    }
    Some(threads - 1)
}

/// Recomputes the digest of each page that was written, and the digest of the sessions in a state of this form, by at most so
/// many threads at once as `workers` has on digests; each digest keeps its text if there is memory for it. The thread that
/// calls is one of them; the others have ended when the call returns.
pub fn digest_all<R: Threads + Sync>(
    rt: &R,
    alloc: Global,
    pages: &mut [Page],
    form: Form,
    sessions: &HashedSessions,
    workers: Workers,
) -> Digested
    ensures pages { pages.new ≡ map refreshed pages.old }
    ensures digested { AreDigested form sessions.now result }
    ensures fit { SessionsFit sessions.now }
{
    let threads = workers.on_digests();
    let Some(others) = beside_sessions(sessions, threads) else {
        refresh_parted(rt, pages, threads);
        return Digested::of_sessions(alloc, form, sessions);
    };
    let (digested, _) = thread::join_mut(
        rt,
        &mut || -> Digested
            ensures { AreDigested form sessions.entry.now result × SessionsFit sessions.entry.now }
        { Digested::of_sessions(alloc, form, sessions) },
        &mut ||
            requires { IsSync R.row }
            ensures { pages.exit.now ≡ map refreshed pages.entry.now }
        { refresh_parted(rt, pages, others) },
    );
    digested
}
