//! Which batch is begun.

use crate::given::Given::{CommitAt, Cut, Finish, Order, Rollback, Step, Want};
use crate::given::{C1, C2, E2, NONE, V0};
use crate::parts::NOTHING;
use crate::script::Row::{Begun, Gives, NoneBegun};
use crate::script::Script;
use crate::seen::{LEADER, OTHER, U};

pub const SCRIPTS: &[Script] = &[
    (
        "the_leader_orders_a_batch_to_the_others_and_begins_it",
        U,
        NOTHING,
        (
            LEADER,
            &[
                Gives(Want(C1, 1), b"."),
                Gives(Want(C2, 1), b"."),
                Gives(Cut, b". O11 O21"),
                Begun(1, 2, false),
            ],
        ),
    ),
    (
        "nothing_is_cut_where_nothing_waits",
        U,
        NOTHING,
        (LEADER, &[Gives(Cut, b"."), NoneBegun]),
    ),
    (
        "one_that_does_not_lead_cuts_nothing",
        U,
        NOTHING,
        (
            OTHER,
            &[Gives(Want(C1, 1), b"."), Gives(Cut, b"."), NoneBegun],
        ),
    ),
    // What waits goes into the batch after it.
    (
        "nothing_is_cut_while_a_batch_is_executed",
        U,
        NOTHING,
        (
            LEADER,
            &[
                Gives(Want(C1, 1), b"."),
                Gives(Cut, b". O11 O21"),
                Gives(Want(C2, 1), b"."),
                Gives(Cut, b"."),
                Begun(1, 1, false),
            ],
        ),
    ),
    (
        "an_ordered_batch_is_begun",
        U,
        NOTHING,
        (OTHER, &[Gives(Order(E2, 1, 1), b"."), Begun(1, 1, false)]),
    ),
    (
        "an_order_of_another_epoch_or_number_is_ignored",
        U,
        NOTHING,
        (
            OTHER,
            &[
                Gives(Order(E2, 2, 1), b"."),
                NoneBegun,
                Gives(Order(E2, 1, 2), b"."),
                NoneBegun,
            ],
        ),
    ),
    // Another order of the next number comes while the leader executes its own batch.
    (
        "an_order_is_ignored_while_a_batch_is_executed",
        U,
        NOTHING,
        (
            LEADER,
            &[
                Gives(Want(C1, 1), b"."),
                Gives(Want(C2, 1), b"."),
                Gives(Cut, b". O11 O21"),
                Gives(Order(E2, 1, 1), b"."),
                Begun(1, 2, false),
            ],
        ),
    ),
    // It lacks the committed state: it is behind.
    (
        "one_that_is_behind_begins_nothing",
        U,
        NOTHING,
        (
            LEADER,
            &[
                Gives(CommitAt(V0, 1, 1, NONE), b"* N10 N20"),
                Gives(Want(C1, 1), b"."),
                Gives(Cut, b"."),
                Gives(Order(E2, 1, 1), b"."),
                NoneBegun,
            ],
        ),
    ),
    // What waits is kept over rollbacks. Of three executors, 0 leads the epochs 1 and 4.
    (
        "the_lead_goes_round",
        U,
        NOTHING,
        (
            LEADER,
            &[
                Gives(Want(C1, 1), b"."),
                Gives(Rollback(V0, 1), b"*"),
                Gives(Cut, b"."),
                Gives(Rollback(V0, 2), b"*"),
                Gives(Cut, b"."),
                Gives(Rollback(V0, 3), b"*"),
                Gives(Cut, b". O11 O21"),
            ],
        ),
    ),
    (
        "where_none_may_fail_there_is_no_other_executor",
        0,
        NOTHING,
        (
            LEADER,
            &[
                Gives(Want(C1, 1), b"."),
                Gives(Cut, b"."),
                Gives(Step(0), b"."),
                Gives(Finish, b"* T01"),
            ],
        ),
    ),
    (
        "where_three_may_fail_there_are_six_others",
        3,
        NOTHING,
        (
            LEADER,
            &[
                Gives(Want(C1, 1), b"."),
                Gives(Cut, b". O11 O21 O31 O41 O51 O61"),
            ],
        ),
    ),
];
