//! What several workers do of a batch: the groups, and the digests of written pages and of the sessions.

ghost use Rattle.std.specs.Prelude.{◌≡◌, true, map, IfOk};
ghost use Rattle.item_steps.specs.Schedule.{GroupRuns};
ghost use Rattle.round.specs.Sittings.{group_fits};
ghost use Rattle.token.specs.Digested.{AreDigested};
ghost use Rattle.pages.specs.Joined.{ArePages, joined_pages, items_of};

use item_steps::{Stamp, Task};
use pages::{Page, Pages};
use proto::Fault;
use round::{Gate, Ran};
use std::alloc::{AllocError, Global};
use std::sync::Wait;
use std::thread::Threads;
use token::{Digested, Form, HashedSessions};
use workers::{Workers, digest_all, run};

/// Runs the group on the pages, by at most `workers` threads at once. Place 0 is at `base`.
/// It errs only if an allocation fails.
pub fn run_group<R: Threads + Wait + Sync, G: Gate + Sync>(
    rt: &R,
    alloc: Global,
    pages: Pages,
    tasks: Vec<Task>,
    base: Stamp,
    workers: Workers,
    gate: &G,
) -> Result<(Pages, Vec<Ran>), AllocError>
    requires fits { group_fits base tasks.items ≡ true }
    ensures runs { IfOk result (λ r. GroupRuns base pages tasks.items r.0 (map (λ ran. ran.answers) r.1.items)) }
    ensures tasks { IfOk result (λ r. map (λ ran. ran.task) r.1.items ≡ tasks.items) }
{
    match run(rt, alloc, pages, tasks, base, workers, gate) {
        Ok(done) => Ok(done),
        Err(Fault::NoMemory) => Err(AllocError),
        // The group fits.
        Err(_) => unreachable!(),
    }
}

/// These pages, and the digest of the sessions in a state of this form: at most `workers` threads at once make it, and those
/// of the pages that were written, so that little is left to do when the pages are sealed.
fn digest_parts<R: Threads + Sync>(
    rt: &R,
    alloc: Global,
    parts: Vec<Page>,
    form: Form,
    sessions: &HashedSessions,
    workers: Workers,
) -> (Pages, Digested)
    requires are { ArePages (items_of parts.items) }
    ensures pages { result.0 ≡ joined_pages (items_of parts.items) }
    ensures digested { AreDigested form sessions.now result.1 }
{
    let mut parts = parts;
    let digested = digest_all(rt, alloc, parts.as_mut_slice(), form, sessions, workers);
    (Pages::join(parts), digested)
}

/// The same pages, and the digest of the sessions in a state of this form. If pages may have been written, threads make
/// the digests; else there is one to make.
pub fn digest<R: Threads + Sync>(
    rt: &R,
    alloc: Global,
    pages: Pages,
    form: Form,
    sessions: &HashedSessions,
    workers: Workers,
) -> (Pages, Digested)
    ensures pages { result.0 ≡ pages }
    ensures digested { AreDigested form sessions.now result.1 }
{
    match pages.written() {
        Ok(parts) => digest_parts(rt, alloc, parts, form, sessions, workers),
        Err(shared) => (shared, Digested::of_sessions(alloc, form, sessions)),
    }
}
