//! What comes before the rows of several scripts.

use crate::given::Given::{Commit, Cut, Rollback, Want};
use crate::given::{C1, C2, C3, C4, V0};
use crate::script::Part;
use crate::script::Row::{Begun, Execute, Gives, Run};
use crate::seen::{LEADER, OTHER};

pub const NOTHING: Part = (LEADER, &[]);

/// Client 1's request 1 is batch 1.
pub const ONE_EXECUTED: Part = (LEADER, &[Execute(C1, 1, b". O11 O21", b"* T01 T11 T21")]);

pub const ONE_COMMITTED: Part = (
    LEADER,
    &[
        Execute(C1, 1, b". O11 O21", b"* T01 T11 T21"),
        Gives(Commit(V0, 1), b"* S11"),
    ],
);

pub const TWO_EXECUTED: Part = (
    LEADER,
    &[
        Execute(C1, 1, b". O11 O21", b"* T01 T11 T21"),
        Execute(C2, 1, b". O12 O22", b"* T02 T12 T22"),
    ],
);

/// The first of two batches is committed.
pub const ONE_OF_TWO: Part = (
    LEADER,
    &[
        Execute(C1, 1, b". O11 O21", b"* T01 T11 T21"),
        Gives(Commit(V0, 1), b"* S11"),
        Execute(C2, 1, b". O12 O22", b"* T02 T12 T22"),
    ],
);

/// Three batches, each over the one before it, and a fourth that is begun.
pub const THREE_AND_WORK: Part = (
    LEADER,
    &[
        Execute(C1, 1, b". O11 O21", b"* T01 T11 T21"),
        Execute(C2, 1, b". O12 O22", b"* T02 T12 T22"),
        Execute(C3, 1, b". O13 O23", b"* T03 T13 T23"),
        Gives(Want(C4, 1), b"."),
        Gives(Cut, b". O14 O24"),
    ],
);

/// Four batches, each over the one before it.
pub const FOUR_EXECUTED: Part = (
    LEADER,
    &[
        Execute(C1, 1, b". O11 O21", b"* T01 T11 T21"),
        Execute(C2, 1, b". O12 O22", b"* T02 T12 T22"),
        Execute(C3, 1, b". O13 O23", b"* T03 T13 T23"),
        Execute(C4, 1, b". O14 O24", b"* T04 T14 T24"),
    ],
);

/// The first batch of epoch 2, of which batch order is asked.
pub const FIRST_OF_AN_EPOCH: Part = (
    OTHER,
    &[
        Gives(Rollback(V0, 1), b"*"),
        Gives(Want(C1, 1), b"."),
        Gives(Cut, b". O01 O21"),
        Begun(1, 1, true),
        Run(b"* T01 T11 T21"),
    ],
);
