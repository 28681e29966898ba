//! Steps, and ends of groups.

use crate::given::Given::{Cut, Finish, OrderOf, Step, Want};
use crate::given::{C1, C2, E0};
use crate::parts::{NOTHING, ONE_EXECUTED};
use crate::script::Row::{Begun, Execute, Gives, NoneBegun, Resumes, ToldOver};
use crate::script::Script;
use crate::seen::{LEADER, OTHER, U};

/// Batch 1 of four clients: `set a`, `get a`, `get b`, `set b`. Each reader is in another group than
/// the writer of its key.
const TWO_GROUPS: &[u8] = &[
    // Batch 1 of epoch 1 at moment 1000, of four requests.
    4, 0, 0, 0, 0, 0, 0, 0, 1, 0, 0, 0, 0, 0, 0, 0, 1, 0, 0, 3, 232, 0, 0, 0, 4,
    // Client 1: `set a`.
    0, 1, 0, 0, 0, 0, 0, 0, 0, 1, 2, 1, b'a', 0, 0, 0, 0, 0, 0, 0, 0, 0, 0, 0, 1, b'5',
    // Client 2: `get a`.
    0, 2, 0, 0, 0, 0, 0, 0, 0, 1, 0, 0, 0, 0, 1, 1, b'a',
    // Client 3: `get b`.
    0, 3, 0, 0, 0, 0, 0, 0, 0, 1, 0, 0, 0, 0, 1, 1, b'b',
    // Client 4: `set b`.
    0, 4, 0, 0, 0, 0, 0, 0, 0, 1, 2, 1, b'b', 0, 0, 0, 0, 0, 0, 0, 0, 0, 0, 0, 1, b'5',
];

/// Batch 1 of no request.
const NO_REQUEST: &[u8] = &[
    4, 0, 0, 0, 0, 0, 0, 0, 1, 0, 0, 0, 0, 0, 0, 0, 1, 0, 0, 3, 232, 0, 0, 0, 0,
];

pub const SCRIPTS: &[Script] = &[
    // The requests 0 and 2 are the first group, 1 and 3 the second one.
    (
        "a_batch_is_complete_after_its_last_group",
        U,
        NOTHING,
        (
            OTHER,
            &[
                Gives(OrderOf(E0, TWO_GROUPS), b"."),
                Gives(Step(0), b"."),
                Gives(Step(2), b"."),
                Gives(Finish, b"."),
                Gives(Step(1), b"."),
                Gives(Step(3), b"."),
                Gives(Finish, b"* T01 T11 T21"),
                Resumes(b"> T01 T11 T21 A01 A11 A21"),
            ],
        ),
    ),
    // A step of another place, and the end of a group that is not done, change nothing.
    (
        "a_step_that_is_not_there_is_ignored",
        U,
        NOTHING,
        (
            LEADER,
            &[
                Gives(Step(0), b"."),
                Gives(Finish, b"."),
                Gives(Want(C1, 1), b"."),
                Gives(Cut, b". O11 O21"),
                Gives(Step(1), b"."),
                Gives(Finish, b"."),
                Begun(1, 1, false),
            ],
        ),
    ),
    // Each step is made once.
    (
        "a_batch_that_is_complete_joins_the_chain_and_is_told",
        U,
        NOTHING,
        (
            LEADER,
            &[
                Gives(Want(C1, 1), b"."),
                Gives(Cut, b". O11 O21"),
                Gives(Step(0), b"."),
                NoneBegun,
                Gives(Step(0), b"."),
                Gives(Finish, b"* T01 T11 T21"),
                Gives(Finish, b"."),
            ],
        ),
    ),
    (
        "a_token_is_told_with_that_of_the_state_before",
        U,
        ONE_EXECUTED,
        (
            LEADER,
            &[
                ToldOver(1),
                Execute(C2, 1, b". O12 O22", b"* T02 T12 T22"),
                ToldOver(2),
            ],
        ),
    ),
    (
        "a_batch_of_which_no_request_runs_is_complete_at_once",
        U,
        NOTHING,
        (
            OTHER,
            &[
                Gives(OrderOf(E0, NO_REQUEST), b"* T01 T11 T21"),
                Resumes(b"> T01 T11 T21 A01 A11 A21"),
            ],
        ),
    ),
];
