//! What is among the letters that are held.

ghost use Rattle.std.specs.Prelude.{◌≡◌, None, if◌then◌else◌};
ghost use Rattle.std.specs.List.{position};
ghost use Rattle.following.specs.Letters.{has_room_for_batch, is_next_decree as is_next, is_later_decree as is_later, is_due_decree as is_due, is_next_order as is_order, fits_chain as fits, is_any_parcel as any_parcel, is_parcel_of as of_number, is_parcel_below as below};
ghost use Rattle.following.specs.Rules.{is_held};
ghost use Rattle.following.specs.After.{is_stuck as stuck};

use crate::letter::{HeldLetter, decree_place};
use crate::report::ExecutorReport;

/// Whether the letter is the decree that is to be obeyed next.
pub fn is_next_decree(report: ExecutorReport, letter: HeldLetter) -> bool
    ensures { result ≡ is_next report letter }
{
    let place = decree_place(letter);
    0 < place && place - 1 == report.known
}

/// Whether the letter is a decree of a later place.
fn is_later_decree(report: ExecutorReport, letter: HeldLetter) -> bool
    ensures { result ≡ is_later report letter }
{
    let place = decree_place(letter);
    0 < place && report.known < place - 1
}

/// Whether the letter is a Rollback, or commits the first member of the chain.
fn fits_chain(report: ExecutorReport, letter: HeldLetter) -> bool
    ensures { result ≡ fits report letter }
{
    match letter {
        HeldLetter::Commit { number, .. } => {
            0 < report.chain && 0 < number && number - 1 == report.number
        }
        HeldLetter::Rollback { .. } => true,
        HeldLetter::Order { .. } => false,
        HeldLetter::Parcel { .. } => false,
    }
}

/// Whether the letter is the next decree, and fits the chain.
fn is_due_decree(report: ExecutorReport, letter: HeldLetter) -> bool
    ensures { result ≡ is_due report letter }
{
    is_next_decree(report, letter) && fits_chain(report, letter)
}

/// Whether the letter is the order of the number after the tip, in this epoch.
pub fn is_next_order(report: ExecutorReport, letter: HeldLetter) -> bool
    ensures { result ≡ is_order report letter }
{
    match letter {
        HeldLetter::Order { epoch, number } => {
            epoch == report.epoch
                && report.number < number
                && number - report.number - 1 == report.chain as u64
        }
        HeldLetter::Commit { .. } => false,
        HeldLetter::Rollback { .. } => false,
        HeldLetter::Parcel { .. } => false,
    }
}

/// Whether the letter is a parcel.
pub fn is_parcel(letter: HeldLetter) -> bool
    ensures { result ≡ any_parcel letter }
{
    match letter {
        HeldLetter::Parcel { .. } => true,
        HeldLetter::Order { .. } => false,
        HeldLetter::Commit { .. } => false,
        HeldLetter::Rollback { .. } => false,
    }
}

/// Whether the letter is the parcel of this number.
fn is_parcel_of(standing: u64, letter: HeldLetter) -> bool
    ensures { result ≡ of_number standing letter }
{
    match letter {
        HeldLetter::Parcel { number } => number == standing,
        HeldLetter::Order { .. } => false,
        HeldLetter::Commit { .. } => false,
        HeldLetter::Rollback { .. } => false,
    }
}

/// Whether the letter is a parcel of a lower number.
fn is_parcel_below(standing: u64, letter: HeldLetter) -> bool
    ensures { result ≡ below standing letter }
{
    match letter {
        HeldLetter::Parcel { number } => number < standing,
        HeldLetter::Order { .. } => false,
        HeldLetter::Commit { .. } => false,
        HeldLetter::Rollback { .. } => false,
    }
}

/// The first that is the next decree.
pub fn next_decree(report: ExecutorReport, held: &[HeldLetter]) -> Option<usize>
    ensures { result ≡ position (is_next report) held.now }
{
    held.iter()
        .position(|letter| is_next_decree(report, *letter))
}

/// The first that is the next decree, if it fits the chain.
pub fn due_decree(report: ExecutorReport, held: &[HeldLetter]) -> Option<usize>
    ensures { result ≡ position (is_due report) held.now }
{
    held.iter()
        .position(|letter| is_due_decree(report, *letter))
}

/// The first that is the order of the number after the tip.
fn next_order(report: ExecutorReport, held: &[HeldLetter]) -> Option<usize>
    ensures { result ≡ position (is_order report) held.now }
{
    held.iter()
        .position(|letter| is_next_order(report, *letter))
}

/// The same, if it can be executed now.
pub fn due_order(report: ExecutorReport, held: &[HeldLetter]) -> Option<usize>
    ensures { result ≡ (if has_room_for_batch report then position (is_order report) held.now else None) }
{
    if !report.may_begin() {
        return None;
    }
    next_order(report, held)
}

/// The first that is the parcel of this number.
pub fn parcel_of(standing: u64, held: &[HeldLetter]) -> Option<usize>
    ensures { result ≡ position (of_number standing) held.now }
{
    held.iter()
        .position(|letter| is_parcel_of(standing, *letter))
}

/// The first that is a parcel of a lower number.
pub fn parcel_below(standing: u64, held: &[HeldLetter]) -> Option<usize>
    ensures { result ≡ position (below standing) held.now }
{
    held.iter()
        .position(|letter| is_parcel_below(standing, *letter))
}

/// The first that is a parcel.
fn first_parcel(held: &[HeldLetter]) -> Option<usize>
    ensures { result ≡ position any_parcel held.now }
{
    held.iter().position(|letter| is_parcel(*letter))
}

/// Whether a parcel is held.
pub fn has_parcel(held: &[HeldLetter]) -> bool
    ensures { result ≡ is_held any_parcel held.now }
{
    first_parcel(held).is_some()
}

/// The first that is a decree of a place after the next one.
fn first_later_decree(report: ExecutorReport, held: &[HeldLetter]) -> Option<usize>
    ensures { result ≡ position (is_later report) held.now }
{
    held.iter()
        .position(|letter| is_later_decree(report, *letter))
}

/// Whether a decree of a place after the next one is held.
pub fn has_later_decree(report: ExecutorReport, held: &[HeldLetter]) -> bool
    ensures { result ≡ is_held (is_later report) held.now }
{
    first_later_decree(report, held).is_some()
}

/// Whether the next decree is held while the executor follows and runs nothing, and nothing that is held leads to it.
pub fn is_stuck(report: ExecutorReport, held: &[HeldLetter]) -> bool
    ensures { result ≡ stuck report held.now }
{
    !report.is_fetching()
        && !report.is_running
        && next_decree(report, held).is_some()
        && due_decree(report, held).is_none()
        && !(report.may_begin() && next_order(report, held).is_some())
}
