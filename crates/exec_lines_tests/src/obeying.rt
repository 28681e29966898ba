//! Decrees, and what an executor does by them.

use crate::given::Given::{Commit, CommitAt, Cut, Finish, Rollback, Step, Want};
use crate::given::{C1, C2, NONE, V0, V1, V2};
use crate::parts::{NOTHING, ONE_COMMITTED, ONE_EXECUTED, TWO_EXECUTED};
use crate::script::Row::{Execute, Gives, NoneBegun, Resumes, Run, Stands};
use crate::script::Script;
use crate::seen::{LEADER, U};

pub const SCRIPTS: &[Script] = &[
    (
        "a_commit_of_the_first_member_gives_its_replies",
        U,
        ONE_EXECUTED,
        (
            LEADER,
            &[
                Gives(Commit(V0, 1), b"* S11"),
                Stands([1, 1, 1, 1]),
                Resumes(b"> A02 A12 A22"),
            ],
        ),
    ),
    (
        "replies_come_in_the_order_of_the_batch",
        U,
        NOTHING,
        (
            LEADER,
            &[
                Gives(Want(C2, 1), b"."),
                Gives(Want(C1, 1), b"."),
                Gives(Cut, b". O11 O21"),
                Run(b"* T01 T11 T21"),
                Gives(Commit(V0, 1), b"* S21 S11"),
            ],
        ),
    ),
    (
        "a_rollback_undoes_the_chain_and_begins_an_epoch",
        U,
        TWO_EXECUTED,
        (
            LEADER,
            &[
                Gives(Rollback(V0, 1), b"*"),
                Stands([1, 0, 2, 1]),
                Resumes(b"> A02 A12 A22"),
            ],
        ),
    ),
    (
        "a_rollback_keeps_what_is_committed",
        U,
        ONE_COMMITTED,
        (
            LEADER,
            &[
                Gives(Rollback(V0, 2), b"*"),
                Stands([2, 1, 2, 2]),
                Resumes(b"> A03 A13 A23"),
            ],
        ),
    ),
    (
        "a_rollback_drops_the_work",
        U,
        NOTHING,
        (
            LEADER,
            &[
                Gives(Want(C1, 1), b"."),
                Gives(Cut, b". O11 O21"),
                Gives(Rollback(V0, 1), b"*"),
                NoneBegun,
                Gives(Step(0), b"."),
                Gives(Finish, b"."),
            ],
        ),
    ),
    (
        "a_commit_of_another_state_undoes_the_chain_and_asks_for_that",
        U,
        ONE_EXECUTED,
        (
            LEADER,
            &[
                Gives(CommitAt(V0, 1, 1, NONE), b"* N10 N20"),
                Stands([1, 1, 1, 1]),
                Resumes(b"> A02 A12 A22 N10 N20"),
            ],
        ),
    ),
    (
        "a_rollback_of_one_that_is_behind_asks_again",
        U,
        NOTHING,
        (
            LEADER,
            &[
                Gives(CommitAt(V0, 1, 1, NONE), b"* N10 N20"),
                Gives(Rollback(V0, 2), b"* N10 N20"),
                Stands([2, 1, 2, 2]),
            ],
        ),
    ),
    (
        "a_decree_of_a_later_place_is_asked_back_by_the_next_place",
        U,
        NOTHING,
        (
            LEADER,
            &[
                Gives(Rollback(V2, 2), b". A21"),
                Execute(C1, 1, b". O11 O21", b"* T01 T11 T21"),
                Gives(Commit(V0, 1), b"* S11"),
                Gives(Rollback(V1, 7), b". A12"),
                Stands([1, 1, 1, 1]),
            ],
        ),
    ),
    (
        "a_stale_decree_is_ignored",
        U,
        ONE_COMMITTED,
        (
            LEADER,
            &[
                Gives(Rollback(V0, 1), b"."),
                Gives(Rollback(V0, 0), b"."),
                Stands([1, 1, 1, 1]),
            ],
        ),
    ),
    // No verifier tells of such a decree, since it does not follow.
    (
        "a_commit_of_the_number_after_the_next_is_ignored",
        U,
        TWO_EXECUTED,
        (
            LEADER,
            &[
                Gives(CommitAt(V0, 1, 2, 2), b"."),
                Stands([0, 0, 1, 1]),
                Resumes(b"> T01 T11 T21 T02 T12 T22 A01 A11 A21"),
            ],
        ),
    ),
];
