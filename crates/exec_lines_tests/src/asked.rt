//! What clients ask.

use crate::given::Given::{Commit, Cut, Want};
use crate::given::{C1, V0};
use crate::parts::{NOTHING, ONE_COMMITTED, ONE_EXECUTED};
use crate::script::Row::{Execute, Gives};
use crate::script::Script;
use crate::seen::{LEADER, U};

pub const SCRIPTS: &[Script] = &[
    (
        "a_request_waits_for_a_batch",
        U,
        NOTHING,
        (
            LEADER,
            &[Gives(Want(C1, 1), b"."), Gives(Cut, b". O11 O21")],
        ),
    ),
    (
        "a_request_that_ran_last_is_answered_again",
        U,
        ONE_COMMITTED,
        (LEADER, &[Gives(Want(C1, 1), b". S11"), Gives(Cut, b".")]),
    ),
    // Its reply is not shown before the decree.
    (
        "a_request_that_is_not_committed_is_not_answered",
        U,
        ONE_EXECUTED,
        (LEADER, &[Gives(Want(C1, 1), b".")]),
    ),
    (
        "a_past_request_is_ignored",
        U,
        ONE_COMMITTED,
        (
            LEADER,
            &[
                Execute(C1, 2, b". O12 O22", b"* T02 T12 T22"),
                Gives(Commit(V0, 2), b"* S12"),
                Gives(Want(C1, 1), b"."),
                Gives(Want(C1, 2), b". S12"),
            ],
        ),
    ),
];
