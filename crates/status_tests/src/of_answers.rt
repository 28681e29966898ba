//! Rows of a request and the beginning of its response.

use crate::samples::{seen_with, some_figures};
use figures::{Figures, NodeFigures};
use serde_json::Value;
use status::answer;
use std::alloc::Global;
use std::test::Fail;

/// The answer of a server that has these figures.
fn answer_of(alloc: Global, request: &[u8], figures: Figures) -> Option<Vec<u8>> {
    answer(alloc, request, &seen_with(alloc, figures)).ok()?
}

/// Whether the request is answered by a response that begins so and closes the connection.
fn answers(alloc: Global, request: &[u8], first: &[u8]) -> bool {
    match answer_of(alloc, request, some_figures()) {
        Some(response) => {
            let closing = b"\r\nconnection: close\r\n\r\n".as_slice();
            response.starts_with(first) && response.windows(closing.len()).any(|w| w == closing)
        }
        _ => false,
    }
}

/// Whether more bytes are asked for.
fn waits(alloc: Global, request: &[u8]) -> bool {
    matches!(
        answer(alloc, request, &seen_with(alloc, some_figures())),
        Ok(None)
    )
}

/// Whether the first request is answered by the head of what the second is answered, and no more.
fn is_head_of(alloc: Global, head: &[u8], whole: &[u8]) -> bool {
    match (
        answer_of(alloc, head, some_figures()),
        answer_of(alloc, whole, some_figures()),
    ) {
        (Some(head), Some(whole)) => {
            whole.starts_with(head.as_slice())
                && head.ends_with(b"\r\n\r\n")
                && head.len() < whole.len()
        }
        _ => false,
    }
}

/// A request, and how its response begins.
type Answered = (&'static [u8], &'static [u8]);

const PAGE: &[u8] = b"HTTP/1.1 200 OK\r\ncontent-type: text/html; charset=utf-8\r\n";

const TEXT: &[u8] =
    b"HTTP/1.1 200 OK\r\ncontent-type: text/plain; version=0.0.4; charset=utf-8\r\n";

const REQUESTS_THAT_ARE_ANSWERED: [Answered; 4] = [
    (b"GET / HTTP/1.1\r\nHost: a\r\n\r\n", PAGE),
    (b"GET /?a=b HTTP/1.0\r\n\r\n", PAGE),
    (b"GET /metrics HTTP/1.1\r\nHost: a\r\n\r\nmore", TEXT),
    (
        b"GET /data.json HTTP/1.1\r\n\r\n",
        b"HTTP/1.1 200 OK\r\ncontent-type: application/json\r\n",
    ),
];

const BAD: &[u8] = b"HTTP/1.1 400 Bad Request\r\n";

const METHOD: &[u8] = b"HTTP/1.1 405 Method Not Allowed\r\n";

const MISSING: &[u8] = b"HTTP/1.1 404 Not Found\r\n";

const REQUESTS_THAT_ARE_REFUSED: [Answered; 7] = [
    (b"GET /metric HTTP/1.1\r\n\r\n", MISSING),
    (b"GET /metrics/ HTTP/1.1\r\n\r\n", MISSING),
    (b"POST /metrics HTTP/1.1\r\n\r\n", METHOD),
    (b"get / HTTP/1.1\r\n\r\n", METHOD),
    (b"set a 0 0 1\r\n", BAD),
    (b"GET / HTTP/2.0\r\n\r\n", BAD),
    (b"\x16\x03\x01", BAD),
];

/// The first request that is answered in another way.
fn wrong_answer(alloc: Global, rows: &[Answered]) -> Option<usize> {
    for (at, (request, first)) in rows.iter().enumerate() {
        if !answers(alloc, *request, *first) {
            return Some(at);
        }
    }
    None
}

const HEADS_THAT_ARE_ASKED_FOR: [(&[u8], &[u8]); 3] = [
    (b"HEAD / HTTP/1.1\r\n\r\n", b"GET / HTTP/1.1\r\n\r\n"),
    (
        b"HEAD /metrics HTTP/1.1\r\n\r\n",
        b"GET /metrics HTTP/1.1\r\n\r\n",
    ),
    (b"HEAD /a HTTP/1.1\r\n\r\n", b"GET /a HTTP/1.1\r\n\r\n"),
];

/// The first of them that is not answered by the head of the other answer.
fn wrong_head(alloc: Global) -> Option<usize> {
    for (at, (head, whole)) in HEADS_THAT_ARE_ASKED_FOR.iter().enumerate() {
        if !is_head_of(alloc, *head, *whole) {
            return Some(at);
        }
    }
    None
}

const HEADS_THAT_ARE_NOT_WHOLE: [&[u8]; 3] = [b"", b"GET", b"GET / HTTP/1.1\r\nHost: a\r\n"];

/// The first of them that is answered.
fn whole_head(alloc: Global) -> Option<usize> {
    for (at, head) in HEADS_THAT_ARE_NOT_WHOLE.iter().enumerate() {
        if !waits(alloc, *head) {
            return Some(at);
        }
    }
    None
}

/// The first so many nodes are up.
fn bring_up(nodes: &mut [NodeFigures], count: usize) {
    for node in nodes.iter_mut().take(count) {
        node.is_up = true;
    }
}

/// The figures of a server of three executors and three verifiers, so many of which are up.
fn figures_of(executors: usize, verifiers: usize) -> Figures {
    let mut figures = Figures::NONE;
    figures.replicas.members = 3;
    bring_up(figures.replicas.executors.as_mut_slice(), executors);
    bring_up(figures.replicas.verifiers.as_mut_slice(), verifiers);
    figures
}

/// How many executors and verifiers are up, whether the last save failed, and how the response begins and ends.
type Health = (usize, usize, bool, &'static [u8], &'static [u8]);

const WELL: &[u8] = b"HTTP/1.1 200 OK\r\ncontent-type: text/plain; charset=utf-8\r\n";

const UNWELL: &[u8] = b"HTTP/1.1 503 Service Unavailable\r\n";

const HEALTH_OF_A_SERVER: [Health; 7] = [
    (3, 3, false, WELL, b"\n"),
    (2, 2, false, WELL, b"\n"),
    (1, 3, false, UNWELL, b"\n"),
    (3, 1, false, UNWELL, b"\n"),
    (0, 0, false, UNWELL, b"\n"),
    (
        3,
        3,
        true,
        UNWELL,
        b"\r\n\r\nThe last save failed: nothing is answered.\n",
    ),
    (1, 3, true, UNWELL, b"\r\n\r\nToo few replicas are up.\n"),
];

/// Whether /healthz is answered so.
fn is_health(alloc: Global, row: &Health) -> bool {
    let (executors, verifiers, is_unsaved, first, last) = *row;
    let mut figures = figures_of(executors, verifiers);
    figures.saves.failing = u64::from(is_unsaved);
    match answer_of(alloc, b"GET /healthz HTTP/1.1\r\n\r\n", figures) {
        Some(response) => response.starts_with(first) && response.ends_with(last),
        _ => false,
    }
}

/// The first of them that is not so.
fn wrong_health(alloc: Global) -> Option<usize> {
    for (at, row) in HEALTH_OF_A_SERVER.iter().enumerate() {
        if !is_health(alloc, row) {
            return Some(at);
        }
    }
    None
}

/// A GET of this path with so many fields of so many bytes.
fn long(alloc: Global, fields: usize, bytes: usize) -> Option<Vec<u8>> {
    let mut request = Vec::new(alloc);
    request.extend_from_slice(b"GET / HTTP/1.1\r\n").ok()?;
    for _ in 0..fields {
        request.extend_from_slice(b"x: ").ok()?;
        for _ in 0..bytes {
            request.push(b'a').ok()?;
        }
        request.extend_from_slice(b"\r\n").ok()?;
    }
    request.extend_from_slice(b"\r\n").ok()?;
    Some(request)
}

fn answers_long(alloc: Global, fields: usize, bytes: usize, first: &[u8]) -> bool {
    match long(alloc, fields, bytes) {
        Some(request) => answers(alloc, request.as_slice(), first),
        None => false,
    }
}

const LONG: &[u8] = b"HTTP/1.1 431 Request Header Fields Too Large\r\n";

/// How many fields of how many bytes, and how the response begins.
const HEADS_THAT_ARE_LONG: [(usize, usize, &[u8]); 4] = [
    (64, 20, b"HTTP/1.1 200 OK\r\n"),
    (65, 20, LONG),
    (1, 8169, b"HTTP/1.1 200 OK\r\n"),
    (1, 8170, LONG),
];

/// The first of them that is not answered so.
fn wrong_long(alloc: Global) -> Option<usize> {
    for (at, (fields, bytes, first)) in HEADS_THAT_ARE_LONG.iter().enumerate() {
        if !answers_long(alloc, *fields, *bytes, *first) {
            return Some(at);
        }
    }
    None
}

/// The number at this path of the data that the request is answered with.
fn number_of(alloc: Global, request: &[u8], path: &str) -> Option<u64> {
    let response = answer_of(alloc, request, some_figures())?;
    let ends = b"\r\n\r\n".as_slice();
    let end = response.windows(ends.len()).position(|w| w == ends)?;
    let start = end.saturating_add(ends.len());
    let (_, body) = response.split_at(start.min(response.len()));
    let text = std::str::from_utf8(body).ok()?;
    let value = Value::from_str(alloc, text).ok()?;
    value.pointer(path).and_then(Value::as_u64)
}

/// A path, and the number there.
type Number = (&'static str, Option<u64>);

const NUMBERS_OF_THE_DATA: [Number; 21] = [
    ("/uptime_seconds", Some(7)),
    ("/connections/accepted", Some(12)),
    ("/server/limits/connections", Some(1024)),
    ("/refusals/2", Some(1)),
    ("/commands/4/2", Some(2)),
    ("/replicas/executors/0/stops", Some(2)),
    ("/saves/made", Some(100)),
    ("/saves/failed", Some(3)),
    ("/saves/waiting", Some(5)),
    ("/saves/failing", Some(1)),
    ("/saves/bytes", Some(73_728)),
    ("/saves/folders", Some(3)),
    ("/saves/current_folders", Some(2)),
    ("/saves/each_folder/0/made", Some(100)),
    ("/saves/each_folder/1/saved_at", Some(1_764_403_300)),
    ("/saves/each_folder/2/failed", Some(103)),
    ("/saves/each_folder/3/failed", None),
    ("/times/reply/counts/1", Some(1)),
    ("/times/batch/sum", Some(1234567)),
    ("/times/parts/agree/sum", Some(300)),
    ("/times/save/sum", Some(700)),
];

const NUMBERS_OF_THE_SAMPLES: [Number; 4] = [
    ("/0/uptime_seconds", Some(7)),
    ("/0/requests", Some(0)),
    ("/0/replies/1", Some(1)),
    ("/1/uptime_seconds", None),
];

/// The first of the numbers that is not in the answer.
fn wrong_number(alloc: Global, request: &[u8], rows: &[Number]) -> Option<usize> {
    for (at, (path, number)) in rows.iter().enumerate() {
        if number_of(alloc, request, *path) != *number {
            return Some(at);
        }
    }
    None
}

/// What is answered: each kind of row, and the first row that is not so.
#[test]
fn requests_are_answered_so(rt: HostRuntime) -> Result<(), Fail> {
    let alloc = rt.alloc();
    let data = b"GET /data.json HTTP/1.1\r\n\r\n";
    let history = b"GET /history.json HTTP/1.1\r\n\r\n";
    let wrong = [
        (
            "requests_that_are_answered",
            wrong_answer(alloc, &REQUESTS_THAT_ARE_ANSWERED),
        ),
        ("heads_that_are_asked_for", wrong_head(alloc)),
        ("health_of_a_server", wrong_health(alloc)),
        (
            "requests_that_are_refused",
            wrong_answer(alloc, &REQUESTS_THAT_ARE_REFUSED),
        ),
        ("heads_that_are_long", wrong_long(alloc)),
        ("heads_that_are_not_whole", whole_head(alloc)),
        (
            "numbers_of_the_data",
            wrong_number(alloc, data, &NUMBERS_OF_THE_DATA),
        ),
        (
            "numbers_of_the_samples",
            wrong_number(alloc, history, &NUMBERS_OF_THE_SAMPLES),
        ),
    ];
    for (name, row) in &wrong {
        assert_eq!(rt; *row, None, "{name}");
    }
    Ok(())
}
