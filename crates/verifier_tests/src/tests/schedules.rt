//! All schedules, each in a file whose name says what it shows.
//!
//! A schedule has a line for each input, and below it, set in, what the verifier answers: just these
//! letters, in this order. Empty lines and those that begin with `#` are skipped. The first line,
//! `u 1`, says that there are three verifiers, `v0` to `v2`, and three executors, `e0` to `e2`; `c1` is
//! a client.
//!
//! | Line | What happens |
//! |---|---|
//! | `v1 opens` | verifier 1 is opened with the record that it has; if it is up, it crashes before |
//! | `e0 > v1: BODY` | the letter comes to verifier 1, whether or not it was sent |
//! | `v1 suspects` | it is told to suspect the leader |
//! | `v1 trims to 2` | it is told that the decrees up to place 2 may be forgotten |
//! | `v1 fails its next save` | its next save will fail |
//! | `v1 finds 01 56 00x8` | it is down, and has a record of these bytes: hexadecimal, `00x8` is eight of them |
//! | `v1 has 01 56 00x8` | a test: its record is of these bytes |
//! | `v1 is up in view 1 knows 2` | a test: of its view and of how many decrees it knows; or `v1 is stopped` |
//!
//! An answer is `v1 > v0 v2: BODY`, a letter to each of these in turn, or `stopped`, or `bad record`.
//! A token of 32 equal bytes is written as one number. The bodies:
//!
//!     token 7 of batch 1 epoch 1 over 0
//!     accept view 0 place 1 DECREE, accepted view 0 place 1 DECREE
//!     decided place 1 DECREE
//!     ask place 1, change view 1
//!     stands place 1 number 1 token 7 epoch 1 first 1
//!     promise view 1 knows 0 accepted nothing, promise view 1 knows 0 accepted view 0 DECREE
//!
//! and DECREE is `commit 1 token 7` or `rollback`.

mod a_batch_is_decided;
mod a_decree_outlives_its_leader;
mod a_leader_that_is_behind;
mod a_leader_that_restarts;
mod a_leader_that_trimmed;
mod a_rollback_by_doubt;
mod a_verifier_that_is_behind;
mod a_verifier_that_is_told_what_stands;
mod each_save_fails;
mod five_verifiers;
mod letters_that_come_twice;
mod letters_that_fit_no_line;
mod no_token_can_win;
mod one_verifier_decides_alone;
mod places_that_are_forgotten;
mod records_of_a_later_start;
mod records_that_are_found;
mod seven_verifiers;
mod sixteen_decrees_at_once;
mod the_first_save_fails;
mod the_highest_view_counts;
mod the_last_place;
mod tokens_come_ahead_of_the_decree;
mod tokens_overrule_doubt;
mod two_proposals;
mod views_of_its_own;
mod what_could_not_stand;

pub const ALL: [(&str, &str); 27] = [
    (
        "one_verifier_decides_alone",
        one_verifier_decides_alone::TEXT,
    ),
    ("a_batch_is_decided", a_batch_is_decided::TEXT),
    (
        "tokens_come_ahead_of_the_decree",
        tokens_come_ahead_of_the_decree::TEXT,
    ),
    (
        "a_decree_outlives_its_leader",
        a_decree_outlives_its_leader::TEXT,
    ),
    ("letters_that_come_twice", letters_that_come_twice::TEXT),
    ("a_rollback_by_doubt", a_rollback_by_doubt::TEXT),
    ("tokens_overrule_doubt", tokens_overrule_doubt::TEXT),
    ("no_token_can_win", no_token_can_win::TEXT),
    ("a_leader_that_is_behind", a_leader_that_is_behind::TEXT),
    ("a_verifier_that_is_behind", a_verifier_that_is_behind::TEXT),
    ("sixteen_decrees_at_once", sixteen_decrees_at_once::TEXT),
    ("letters_that_fit_no_line", letters_that_fit_no_line::TEXT),
    ("a_leader_that_restarts", a_leader_that_restarts::TEXT),
    ("two_proposals", two_proposals::TEXT),
    ("the_highest_view_counts", the_highest_view_counts::TEXT),
    ("five_verifiers", five_verifiers::TEXT),
    ("seven_verifiers", seven_verifiers::TEXT),
    ("views_of_its_own", views_of_its_own::TEXT),
    ("the_first_save_fails", the_first_save_fails::TEXT),
    ("each_save_fails", each_save_fails::TEXT),
    ("records_that_are_found", records_that_are_found::TEXT),
    ("a_leader_that_trimmed", a_leader_that_trimmed::TEXT),
    ("places_that_are_forgotten", places_that_are_forgotten::TEXT),
    (
        "a_verifier_that_is_told_what_stands",
        a_verifier_that_is_told_what_stands::TEXT,
    ),
    ("what_could_not_stand", what_could_not_stand::TEXT),
    ("the_last_place", the_last_place::TEXT),
    ("records_of_a_later_start", records_of_a_later_start::TEXT),
];
