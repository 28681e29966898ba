//! Batches that are executed over states that are not committed yet.

use crate::given::Given::{Commit, CommitAt, Cut, Finish, Order, Rollback, Step, Want};
use crate::given::{C2, C3, C5, E2, V0};
use crate::parts::{FIRST_OF_AN_EPOCH, FOUR_EXECUTED, ONE_COMMITTED, ONE_EXECUTED};
use crate::script::Row::{Begun, Gives, NoneBegun, Resumes};
use crate::script::Script;
use crate::seen::{LEADER, OTHER, U};

pub const SCRIPTS: &[Script] = &[
    // A fifth batch is neither cut nor obeyed.
    (
        "a_fifth_batch_waits_until_the_first_is_committed",
        U,
        FOUR_EXECUTED,
        (
            LEADER,
            &[
                Gives(Want(C5, 1), b"."),
                Gives(Cut, b"."),
                Gives(Order(E2, 1, 5), b"."),
                NoneBegun,
                Gives(Commit(V0, 1), b"* S11"),
                Gives(Cut, b". O15 O25"),
            ],
        ),
    ),
    (
        "four_batches_are_committed_in_order_and_each_gives_its_replies",
        U,
        FOUR_EXECUTED,
        (
            LEADER,
            &[
                Gives(Commit(V0, 1), b"* S11"),
                Gives(Commit(V0, 2), b"* S21"),
                Gives(Commit(V0, 3), b"* S31"),
                Gives(Commit(V0, 4), b"* S41"),
                Resumes(b"> A05 A15 A25"),
            ],
        ),
    ),
    (
        "only_the_first_batch_of_a_later_epoch_runs_in_batch_order",
        U,
        FIRST_OF_AN_EPOCH,
        (
            OTHER,
            &[
                Gives(CommitAt(V0, 2, 1, 1), b"* S11"),
                Gives(Want(C2, 1), b"."),
                Gives(Cut, b". O02 O22"),
                Begun(2, 1, false),
            ],
        ),
    ),
    (
        "the_batch_over_a_first_one_that_is_not_committed_runs_by_groups",
        U,
        FIRST_OF_AN_EPOCH,
        (
            OTHER,
            &[
                Gives(Want(C2, 1), b"."),
                Gives(Cut, b". O02 O22"),
                Begun(2, 1, false),
            ],
        ),
    ),
    // The epoch begins with number 2.
    (
        "an_order_of_the_first_batch_of_an_epoch_runs_in_batch_order",
        U,
        ONE_COMMITTED,
        (
            LEADER,
            &[
                Gives(Rollback(V0, 2), b"*"),
                Gives(Order(E2, 2, 2), b"."),
                Begun(2, 1, true),
            ],
        ),
    ),
    // Clients 2 and 3 set the same key, so that each of them is a group.
    (
        "work_over_a_state_that_is_committed_meanwhile_goes_on",
        U,
        ONE_EXECUTED,
        (
            LEADER,
            &[
                Gives(Want(C2, 1), b"."),
                Gives(Want(C3, 1), b"."),
                Gives(Cut, b". O12 O22"),
                Gives(Step(0), b"."),
                Gives(Commit(V0, 1), b"* S11"),
                Gives(Finish, b"."),
                Gives(Step(1), b"."),
                Gives(Finish, b"* T02 T12 T22"),
                Gives(Commit(V0, 2), b"* S21 S31"),
            ],
        ),
    ),
];
