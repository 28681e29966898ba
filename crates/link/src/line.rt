//! The rule that every step of a link keeps, and what each step says of the end that makes it.

use crossbeam_channel::protocol::{Lesson, Outcome, Protocol, Split};
use std::collections::LinkedList;

/// The most items that a link holds.
pub const MOST_ITEMS: usize = 4096;

/// What an end knows: the items that it put and those that it took, and a beginning of all puts and
/// of all takes, each with the number of the end that made it. It is in contracts alone: no
/// value of it is ever made.
pub struct View<T> {
    pub put: LinkedList<T>,
    pub got: LinkedList<T>,
    pub puts: LinkedList<(u64, T)>,
    pub takes: LinkedList<(u64, T)>,
}

/// The rule: what was put is what was taken and then what the link holds, in that order, which is at most
/// `MOST_ITEMS`.
pub struct Line;

impl<T> Protocol<T, View<T>> for Line {
    ghost use Rattle.link.specs.Lines.{LinkHolds, fresh};
    ghost use Rattle.std.specs.Prelude.{[]};

    ghost holds = { LinkHolds };

    ghost first = { fresh [] [] };
}

/// The step of an end that puts an item.
pub struct Putting;

impl<T> Outcome<T, View<T>> for Putting {
    ghost use Rattle.link.specs.Lines.{IsPutIn};

    ghost then = { IsPutIn };
}

/// One that hands its item back says nothing of the link.
impl<T> Lesson<T, View<T>> for Putting {
    ghost fact = { λ v items. Unit {0} };
}

/// The step of an end that takes an item.
pub struct Taking;

impl<T> Outcome<T, View<T>> for Taking {
    ghost use Rattle.link.specs.Lines.{IsTakenOut};

    ghost then = { IsTakenOut };
}

/// One that finds no item says nothing of the link.
impl<T> Lesson<T, View<T>> for Taking {
    ghost fact = { λ v items. Unit {0} };
}

/// The step by which one end becomes two: the other one has done nothing, and knows what this knows.
pub struct Telling;

impl<T> Split<View<T>> for Telling {
    ghost use Rattle.link.specs.Lines.{fresh};

    ghost left = { λ v. v };

    ghost right = { λ v. fresh v.puts v.takes };
}
