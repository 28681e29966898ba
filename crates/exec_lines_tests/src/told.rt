//! What stands, told by a verifier that has forgotten the decrees.

use crate::given::Given::{Commit, Finish, Stands as Tells, Step};
use crate::given::{E1, NONE, V0};
use crate::parts::{NOTHING, ONE_EXECUTED, ONE_OF_TWO, THREE_AND_WORK};
use crate::script::Row::{Begun, CannotResume, Gives, NoneBegun, Resumes, Stands};
use crate::script::Script;
use crate::seen::{LEADER, U};

const MOST: u64 = u64::MAX;

pub const SCRIPTS: &[Script] = &[
    (
        "members_up_to_the_one_that_stands_are_committed",
        U,
        THREE_AND_WORK,
        (
            LEADER,
            &[
                Gives(Tells(V0, 2, 2, 2, [1, 1]), b"* S11 S21"),
                Stands([2, 2, 1, 1]),
                Resumes(b"> T03 T13 T23 A03 A13 A23"),
                Begun(4, 1, false),
                Gives(Commit(V0, 3), b"* S31"),
                Gives(Step(0), b"."),
                Gives(Finish, b"* T04 T14 T24"),
            ],
        ),
    ),
    (
        "work_over_the_member_that_stands_goes_on",
        U,
        THREE_AND_WORK,
        (
            LEADER,
            &[
                Gives(Tells(V0, 3, 3, 3, [1, 1]), b"* S11 S21 S31"),
                Resumes(b"> A04 A14 A24"),
                Begun(4, 1, false),
            ],
        ),
    ),
    // The number is that of the second member, but not the token.
    (
        "where_another_state_stands_the_chain_is_undone",
        U,
        THREE_AND_WORK,
        (
            LEADER,
            &[
                Gives(Tells(V0, 2, 2, NONE, [1, 1]), b"* N10 N20"),
                Stands([2, 2, 1, 1]),
                NoneBegun,
                Resumes(b"> A03 A13 A23 N10 N20"),
            ],
        ),
    ),
    (
        "in_a_later_epoch_what_is_over_it_is_undone",
        U,
        THREE_AND_WORK,
        (
            LEADER,
            &[
                Gives(Tells(V0, 3, 2, 2, [2, 3]), b"* S11 S21"),
                Stands([3, 2, 2, 3]),
                NoneBegun,
                Resumes(b"> A04 A14 A24"),
            ],
        ),
    ),
    // Work over the last member goes, though each member is committed.
    (
        "in_a_later_epoch_the_work_is_dropped",
        U,
        THREE_AND_WORK,
        (
            LEADER,
            &[
                Gives(Tells(V0, 4, 3, 3, [2, 4]), b"* S11 S21 S31"),
                NoneBegun,
                Resumes(b"> A05 A15 A25"),
            ],
        ),
    ),
    // Between are two Rollbacks.
    (
        "where_the_committed_state_stands_the_chain_is_undone",
        U,
        ONE_OF_TWO,
        (
            LEADER,
            &[
                Gives(Tells(V0, 3, 1, 1, [3, 2]), b"*"),
                Stands([3, 1, 3, 2]),
                Resumes(b"> A04 A14 A24"),
            ],
        ),
    ),
    // The first two it knows. What no verifier says of the others' places, which are not known yet: it
    // could not stand there.
    (
        "what_it_knows_or_what_could_not_stand_changes_nothing",
        U,
        ONE_OF_TWO,
        (
            LEADER,
            &[
                Gives(Tells(V0, 1, 1, 1, [1, 1]), b"."),
                Gives(Tells(V0, 1, 0, 0, [2, 1]), b"."),
                Gives(Tells(V0, 3, 2, 2, [1, 1]), b"."),
                Gives(Tells(V0, 2, 3, 2, [0, 1]), b"."),
                Gives(Tells(V0, 3, 2, 2, [2, 0]), b"."),
                Gives(Tells(V0, 3, 2, 2, [2, 4]), b"."),
                Gives(Tells(V0, 2, 2, 2, [1, 2]), b"."),
                Gives(Tells(V0, 2, 0, 2, [3, 1]), b"."),
                Gives(Tells(V0, MOST, MOST, 2, [MOST, 1]), b"."),
                Gives(Tells(V0, MOST, 1, 2, [0, 1]), b"."),
                Stands([1, 1, 1, 1]),
                Resumes(b"> T02 T12 T22 A02 A12 A22"),
            ],
        ),
    ),
    (
        "only_a_verifier_tells_what_stands",
        U,
        ONE_EXECUTED,
        (
            LEADER,
            &[
                Gives(Tells(E1, 1, 1, 1, [1, 1]), b"."),
                Stands([0, 0, 1, 1]),
            ],
        ),
    ),
    // It knows as many decrees as can be counted, and so it cannot be resumed.
    (
        "the_last_place_may_be_told",
        U,
        NOTHING,
        (
            LEADER,
            &[
                Gives(Tells(V0, MOST, MOST, NONE, [1, 1]), b"* N10 N20"),
                CannotResume,
            ],
        ),
    ),
];
