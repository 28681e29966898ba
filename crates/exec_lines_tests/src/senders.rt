//! Letters that another kind of node sends than the one that may.

use crate::given::Given::{Cut, Order, Replies, Rollback, Says, Want};
use crate::given::{C1, E1, FIRST_TOKEN, NO_TOKEN, V1};
use crate::parts::NOTHING;
use crate::script::Row::{Gives, NoneBegun, Stands};
use crate::script::Script;
use crate::seen::{LEADER, U};
use decrees::Ballot;

pub const SCRIPTS: &[Script] = &[
    // Nothing waits after it.
    (
        "only_a_client_wants",
        U,
        NOTHING,
        (
            LEADER,
            &[
                Gives(Want(E1, 1), b"."),
                Gives(Want(V1, 1), b"."),
                Gives(Cut, b"."),
            ],
        ),
    ),
    (
        "only_an_executor_orders",
        U,
        NOTHING,
        (
            LEADER,
            &[
                Gives(Order(C1, 1, 1), b"."),
                Gives(Order(V1, 1, 1), b"."),
                NoneBegun,
            ],
        ),
    ),
    (
        "only_a_verifier_decides",
        U,
        NOTHING,
        (
            LEADER,
            &[
                Gives(Rollback(C1, 1), b"."),
                Gives(Rollback(E1, 1), b"."),
                Stands([0, 0, 1, 1]),
                Gives(Rollback(V1, 1), b"*"),
                Stands([1, 0, 2, 1]),
            ],
        ),
    ),
    // What clients and verifiers are told is nothing for an executor.
    (
        "replies_questions_and_tokens_change_nothing",
        U,
        NOTHING,
        (
            LEADER,
            &[
                Gives(Replies(E1), b"."),
                Gives(Says(V1, Ballot::Ask { place: 1 }), b"."),
                Gives(Says(E1, TOLD), b"."),
                Stands([0, 0, 1, 1]),
            ],
        ),
    ),
];

const TOLD: Ballot = Ballot::Token {
    epoch: 1,
    n: 1,
    previous: FIRST_TOKEN,
    token: NO_TOKEN,
};
