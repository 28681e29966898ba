//! The first command of a service that goes on.

use service::{Fault, Service};
use std::alloc::Global;
use std::rt::Clock;
use std::sync::Wait;
use std::thread::Threads;

/// What is asked. It changes no item.
const FIRST: &[u8] = b"get eve\r\n";

/// So many ticks are made at most until it is answered. It takes fewer than ten at any `u`.
const MOST_TICKS: usize = 64;

/// The moment of all that is done here. A state's moment never falls, so each batch has that of the last one before: no
/// time passes before the event loop's clock begins.
const MOMENT: u32 = 0;

/// The bytes of the first command.
fn first(alloc: Global) -> Result<Vec<u8>, Fault> {
    let mut bytes = Vec::with_capacity(alloc, FIRST.len())?;
    bytes.extend_from_slice(FIRST)?;
    Ok(bytes)
}

/// Asks the first command under this number of a connection.
fn ask(alloc: Global, service: &mut Service, number: u64) -> Result<(), Fault> {
    let bytes = first(alloc)?;
    service.come(alloc, 0, number)?;
    drop(service.hear(alloc, 0, number, bytes)?);
    Ok(())
}

/// A tick, and what is due after it. Whether something was said.
fn has_said<R: Threads + Wait + Clock + Sync>(
    rt: &R,
    alloc: Global,
    service: &mut Service,
) -> bool {
    service.tick(alloc);
    !service.work(rt, rt, alloc, MOMENT).is_empty()
}

/// Has the replicas answer one command of a connection that nobody is, under this number. Replicas that were opened with
/// their records have no leader until somebody who waits suspects the last one; so the first client would wait for that,
/// which takes some ticks. If it is not answered, clients wait. What proxies had outstanding may be carried out here too.
pub fn find_leader<R: Threads + Wait + Clock + Sync>(
    rt: &R,
    alloc: Global,
    service: &mut Service,
    number: u64,
) {
    if ask(alloc, service, number).is_ok() {
        for _ in 0..MOST_TICKS {
            if has_said(rt, alloc, service) {
                break;
            }
        }
    }
    service.leave(0, number);
}
