ghost use Rattle.std.specs.Prelude.{◌≤◌};

use crate::gates::Order;
use crate::tasks::{Does, add, add_all, step};
use item_steps::{Answer, Stamp, Task, apply};
use items::PlainStore;
use pages::{Page, Pages};
use proto::{Command, Fault, Key, Reply, Update};
use rand_core::SeedableRng;
use rand_core::utils::NextWord;
use rand_pcg::Lcg64Xsh32;
use round::{NoGate, Ran};
use sessions::{Request, Sessions};
use std::alloc::{AllocError, Global};
use std::mem;
use std::sync::{Mutex, Wait};
use std::test::*;
use std::thread::Threads;
use token::{Form, HashedSessions, sessions_digest, told_digest_of};
use workers::{Workers, digest_all, run};

fn is_same(a: &Answer, b: &Answer) -> bool {
    match (a, b) {
        (Answer::Seen(None), Answer::Seen(None)) => true,
        (Answer::Seen(Some(a)), Answer::Seen(Some(b))) => {
            a.block.as_slice() == b.block.as_slice() && a.unique == b.unique && a.due == b.due
        }
        (Answer::Did(Reply::Stored), Answer::Did(Reply::Stored)) => true,
        (Answer::Did(Reply::Number(a)), Answer::Did(Reply::Number(b))) => a == b,
        _ => false,
    }
}

fn are_same(a: &[Answer], b: &[Answer]) -> bool {
    for (one, other) in a.iter().zip(b) {
        if !is_same(one, other) {
            return false;
        }
    }
    a.len() == b.len()
}

/// The next step of a request on the plain store; its answer goes to the others.
fn replay_one(
    alloc: Global,
    plain: &mut PlainStore,
    task: &Task,
    base: Stamp,
    answers: &mut Vec<Answer>,
) -> Result<(), AllocError> {
    let at = Stamp {
        moment: base.moment,
        stamp: base.stamp.wrapping_add(u64::from(task.place)),
    };
    if let Some(step) = task.steps.as_slice().get(answers.len()) {
        answers.push(apply(alloc, plain, step, at)?)?;
    }
    Ok(())
}

/// Adds the answers to each request, the request at place `p` being the one at position `p`, if the
/// steps are made one after the other in the order of these places.
pub fn replay(
    alloc: Global,
    plain: &mut PlainStore,
    group: &[Task],
    base: Stamp,
    order: &[u32],
    answers: &mut Vec<Vec<Answer>>,
) -> Result<(), AllocError> {
    for _task in group {
        answers.push(Vec::new(alloc))?;
    }
    for place in order {
        let position = *place as usize;
        if let (Some(task), Some(given)) = (group.get(position), answers.get_mut(position)) {
            replay_one(alloc, plain, task, base, given)?;
        }
    }
    Ok(())
}

/// Whether each request has these answers.
fn are_answered(ran: &[Ran], expected: &[Vec<Answer>]) -> bool {
    for (one, answers) in ran.iter().zip(expected) {
        if !are_same(one.answers(), answers.as_slice()) {
            return false;
        }
    }
    ran.len() == expected.len()
}

/// Whether the requests were answered as on the plain store in this order.
fn is_replay(
    alloc: Global,
    plain: &mut PlainStore,
    group: &[Task],
    base: Stamp,
    order: &[u32],
    ran: &[Ran],
) -> Result<bool, AllocError> {
    let mut replayed = Vec::new(alloc);
    replay(alloc, plain, group, base, order, &mut replayed)?;
    Ok(are_answered(ran, replayed.as_slice()))
}

/// The same items, on pages and on the plain store.
struct Both {
    pages: Pages,
    plain: PlainStore,
}

impl Drop for Both {
    fn drop(self) {
        let Both { pages: _, plain: _ } = self;
    }
}

/// Runs the group on the pages by that many workers. The order that the gate saw goes to `order`.
fn run_on<R: Threads + Wait + Sync>(
    rt: &R,
    alloc: Global,
    pages: &mut Pages,
    group: Vec<Task>,
    base: Stamp,
    workers: Workers,
    order: &mut Vec<u32>,
) -> Result<Vec<Ran>, Fault> {
    let before = mem::replace(pages, Pages::new(alloc)?);
    let gate = Order {
        rt,
        places: Mutex::new(Vec::new(alloc)),
    };
    let (after, ran) = run(rt, alloc, before, group, base, workers, &gate)?;
    *pages = after;
    *order = gate.places.into_inner();
    Ok(ran)
}

/// Runs the group by that many workers, and says whether the order that the gate saw gives the same
/// answers on the plain store, and no readers crossed.
fn is_replayed<R: Threads + Wait + Sync>(
    rt: &R,
    alloc: Global,
    both: &mut Both,
    group: &Vec<Task>,
    base: Stamp,
    workers: usize,
) -> Result<bool, Fault> {
    let Some(workers) = Workers::new(workers) else {
        return Err(Fault::Unfit);
    };
    let mut order = Vec::new(alloc);
    let ran = run_on(
        rt,
        alloc,
        &mut both.pages,
        group.clone()?,
        base,
        workers,
        &mut order,
    )?;
    Ok(is_replay(alloc, &mut both.plain, group, base, &order, &ran)? && !cross(&ran))
}

/// Where a round of this number begins.
fn base_of(number: u64) -> Stamp {
    Stamp {
        moment: 5,
        stamp: number.wrapping_mul(64),
    }
}

/// Whether the answer saw an item with a stamp of 64 or more.
fn is_new(answers: &[Answer], index: usize) -> bool {
    match answers.get(index) {
        Some(Answer::Seen(Some(item))) => 64 <= item.unique,
        _ => false,
    }
}

/// Whether the first of two readers among four saw the new `a` and the old `b`, and the second the new
/// `b` and the old `a`.
fn cross(ran: &[Ran]) -> bool {
    match ran {
        [one, two, _, _] => {
            let (one, two) = (one.answers(), two.answers());
            is_new(one, 2) && !is_new(one, 3) && is_new(two, 2) && !is_new(two, 3)
        }
        _ => false,
    }
}

/// 64 requests: each other one gets a key of its own and then a shared one, the others count one up.
fn add_mixed(alloc: Global, group: &mut Vec<Task>) -> Result<(), AllocError> {
    for place in 0..32u32 {
        let own = b'A' + place as u8;
        let shared = b'0' + (place % 8) as u8;
        add(
            alloc,
            group,
            2 * place,
            &[(Does::Get, &[own]), (Does::Get, &[shared])],
        )?;
        add(alloc, group, 2 * place + 1, &[(Does::Incr, &[shared])])?;
    }
    Ok(())
}

/// One of the eight shared keys, at random.
pub fn shared_key(words: &mut Lcg64Xsh32) -> u8 {
    b'0' + (words.next_word() % 8) as u8
}

/// 64 requests: each other one touches two keys of its own and then a shared one, the others count a
/// shared one up.
fn add_touching(
    alloc: Global,
    group: &mut Vec<Task>,
    words: &mut Lcg64Xsh32,
) -> Result<(), AllocError> {
    for place in 0..32u32 {
        let own = b'0' + 2 * place as u8;
        let touches: [(Does, &[u8]); 3] = [
            (Does::Touch, &[b'x', own]),
            (Does::Touch, &[b'y', own]),
            (Does::Touch, &[shared_key(words)]),
        ];
        add(alloc, group, 2 * place, &touches)?;
        add(
            alloc,
            group,
            2 * place + 1,
            &[(Does::Incr, &[shared_key(words)])],
        )?;
    }
    Ok(())
}

/// The steps of requests.
type Asked = &'static [&'static [(Does, &'static [u8])]];

/// The requests of a round.
enum Group {
    These(Asked),
    Mixed,
    Touching,
}

/// Whether a round of such requests is replayed.
fn is_round_replayed<R: Threads + Wait + Sync>(
    rt: &R,
    alloc: Global,
    both: &mut Both,
    group: &Group,
    words: &mut Lcg64Xsh32,
    number: u64,
    workers: usize,
) -> Result<bool, Fault> {
    let mut tasks = Vec::new(alloc);
    match group {
        Group::These(asked) => add_all(alloc, &mut tasks, 0, *asked)?,
        Group::Mixed => add_mixed(alloc, &mut tasks)?,
        Group::Touching => add_touching(alloc, &mut tasks, words)?,
    }
    is_replayed(rt, alloc, both, &tasks, base_of(number), workers)
}

/// Plays of a first round of number 0, and of others over the same state.
struct Row {
    name: &'static str,
    plays: u32,
    first: Group,
    first_workers: usize,
    then: Group,
    numbers: (u64, u64),
    workers: usize,
}

const SETS: Asked = &[&[(Does::Set(b'1'), b"a")], &[(Does::Set(b'1'), b"b")]];

/// Shared keys that count from 0.
const COUNTERS: Asked = &[
    &[(Does::Set(b'0'), b"0")],
    &[(Does::Set(b'0'), b"1")],
    &[(Does::Set(b'0'), b"2")],
    &[(Does::Set(b'0'), b"3")],
    &[(Does::Set(b'0'), b"4")],
    &[(Does::Set(b'0'), b"5")],
    &[(Does::Set(b'0'), b"6")],
    &[(Does::Set(b'0'), b"7")],
];

/// Two readers of `a` and `b` behind two other keys, in two orders, and two writers.
const CROSSING: Asked = &[
    &[
        (Does::Get, b"x"),
        (Does::Get, b"y"),
        (Does::Get, b"a"),
        (Does::Get, b"b"),
    ],
    &[
        (Does::Get, b"x"),
        (Does::Get, b"y"),
        (Does::Get, b"b"),
        (Does::Get, b"a"),
    ],
    &[(Does::Set(b'1'), b"a")],
    &[(Does::Set(b'1'), b"b")],
];

const ROWS: [Row; 3] = [
    Row {
        name: "readers_never_cross",
        plays: 500,
        first: Group::These(SETS),
        first_workers: 1,
        then: Group::These(CROSSING),
        numbers: (1, 2),
        workers: 4,
    },
    Row {
        name: "orders_of_many_rounds_replay",
        plays: 1,
        first: Group::These(COUNTERS),
        first_workers: 16,
        then: Group::Mixed,
        numbers: (0, 1000),
        workers: 16,
    },
    Row {
        name: "orders_of_touching_rounds_replay",
        plays: 1,
        first: Group::These(COUNTERS),
        first_workers: 16,
        then: Group::Touching,
        numbers: (0, 1000),
        workers: 16,
    },
];

/// Whether the rounds after the first one are replayed.
fn are_replayed<R: Threads + Wait + Sync>(
    rt: &R,
    alloc: Global,
    both: &mut Both,
    row: &Row,
) -> Result<bool, Fault> {
    let mut words = Lcg64Xsh32::seed_from_u64(64);
    let mut all = is_round_replayed(
        rt,
        alloc,
        both,
        &row.first,
        &mut words,
        0,
        row.first_workers,
    )?;
    for number in row.numbers.0..row.numbers.1 {
        all = all
            && is_round_replayed(rt, alloc, both, &row.then, &mut words, number, row.workers)?;
    }
    Ok(all)
}

fn is_play_replayed<R: Threads + Wait + Sync>(
    rt: &R,
    alloc: Global,
    row: &Row,
) -> Result<bool, Fault> {
    let mut both = Both {
        pages: Pages::new(alloc)?,
        plain: PlainStore::new(alloc),
    };
    are_replayed(rt, alloc, &mut both, row)
}

/// How many plays of the row are replayed.
fn replayed<R: Threads + Wait + Sync>(rt: &R, alloc: Global, row: &Row) -> Result<u32, Fault> {
    let mut count = 0u32;
    for _ in 0..row.plays {
        count = count.saturating_add(u32::from(is_play_replayed(rt, alloc, row)?));
    }
    Ok(count)
}

#[test]
fn orders_of_rounds_replay(rt: HostRuntime) -> Result<(), Fail> {
    for row in &ROWS {
        assert!(rt;
            replayed(&rt, rt.alloc(), row) == Ok(row.plays),
            "{}",
            row.name
        );
    }
    Ok(())
}

fn write(alloc: Global, pages: &mut Pages, key: &[u8]) -> Result<(), AllocError> {
    let step = step(alloc, Does::Set(b'1'), key)?;
    apply(alloc, pages, &step, base_of(1))?;
    Ok(())
}

/// Writes each of the 256 pages: those from 128 on by keys of one byte, and the others by keys of two.
fn write_each(alloc: Global, pages: &mut Pages) -> Result<(), AllocError> {
    for byte in 128..=255u8 {
        write(alloc, pages, &[byte])?;
        write(alloc, pages, &[128, byte])?;
    }
    Ok(())
}

/// Pages of which each was written.
fn written_pages(alloc: Global) -> Result<Vec<Page>, AllocError> {
    let mut pages = Pages::new(alloc)?;
    write_each(alloc, &mut pages)?;
    pages.part()
}

/// Keeps a reply to the first request of the client.
fn keep_first(alloc: Global, sessions: &mut Sessions, client: u16) -> Result<(), AllocError>
    requires { 1 ≤ client }
{
    let key = Key::from_slice(alloc, &[b'k'])?;
    let request = Request {
        client,
        number: 1,
        command: Command::Update(Update::Delete { key }),
    };
    sessions.keep(&request, Reply::Deleted)
}

/// Sessions of the clients below this one.
fn sessions_below(alloc: Global, end: u16) -> Result<Sessions, AllocError> {
    let mut sessions = Sessions::new(alloc)?;
    for client in 1..end {
        keep_first(alloc, &mut sessions, client)?;
    }
    Ok(sessions)
}

/// The digest of the sessions in a state of this form.
fn digest_in(form: Form, sessions: &Sessions) -> [u8; 32] {
    match form {
        Form::Old | Form::Current => sessions_digest(sessions),
        Form::Tree => told_digest_of(sessions),
    }
}

/// Whether the workers make the digests that one thread makes of these pages and sessions.
fn make_the_same<R: Threads + Sync>(
    rt: &R,
    alloc: Global,
    pages: &mut [Page],
    alone: &mut [Page],
    form: Form,
    sessions: &HashedSessions,
    workers: Workers,
) -> bool {
    let digested = digest_all(rt, alloc, pages, form, sessions, workers);
    let mut same = 0u32;
    for (page, other) in pages.iter().zip(alone.iter_mut()) {
        other.refresh();
        same = same.saturating_add(u32::from(page.digest() == other.digest()));
    }
    pages.len() == 256 && same == 256 && *digested.digest() == digest_in(form, sessions.sessions())
}

/// The same of the sessions of the clients below this one.
fn make_the_same_below<R: Threads + Sync>(
    rt: &R,
    alloc: Global,
    end: u16,
    form: Form,
    workers: usize,
) -> Result<bool, Fault> {
    let Some(workers) = Workers::new(workers) else {
        return Err(Fault::Unfit);
    };
    let sessions = HashedSessions::new(sessions_below(alloc, end)?);
    let mut pages = written_pages(alloc)?;
    let mut alone = pages.clone()?;
    let (all, alone) = (pages.as_mut_slice(), alone.as_mut_slice());
    Ok(make_the_same(rt, alloc, all, alone, form, &sessions, workers))
}

/// The end of the clients, and how many workers make the digests: in states of both forms of today. From
/// 1,024 clients on the digest of the sessions is made by a thread of its own.
const DIGESTS: [(u16, usize); 6] = [(3, 1), (3, 3), (3, 16), (1025, 1), (1025, 2), (1025, 16)];

#[test]
fn workers_make_the_digests_of_one_thread(rt: HostRuntime) -> Result<(), Fail> {
    for (end, workers) in &DIGESTS {
        let current = make_the_same_below(&rt, rt.alloc(), *end, Form::Current, *workers);
        let tree = make_the_same_below(&rt, rt.alloc(), *end, Form::Tree, *workers);
        assert!(rt;
            (current, tree) == (Ok(true), Ok(true)),
            "{} {}",
            end,
            workers
        );
    }
    Ok(())
}

#[test]
fn there_are_1_to_16_workers(rt: HostRuntime) -> Result<(), Fail> {
    for (count, is_fit) in &[(0usize, false), (1, true), (16, true), (17, false)] {
        assert!(rt; Workers::new(*count).is_some() == *is_fit, "{}", count);
    }
    Ok(())
}

/// Two of these four requests have place 1.
fn run_unfit<R: Threads + Wait + Sync>(
    rt: &R,
    alloc: Global,
    workers: Workers,
) -> Result<(), Fault> {
    let mut group = Vec::new(alloc);
    add_all(alloc, &mut group, 0, SETS)?;
    add_all(alloc, &mut group, 1, SETS)?;
    run(
        rt,
        alloc,
        Pages::new(alloc)?,
        group,
        base_of(0),
        workers,
        &NoGate,
    )?;
    Ok(())
}

#[test]
fn unfit_groups_are_refused(rt: HostRuntime) -> Result<(), Fail> {
    let two = Workers::new(2).unwrap();
    assert!(rt; run_unfit(&rt, rt.alloc(), two) == Err(Fault::Unfit));
    Ok(())
}
