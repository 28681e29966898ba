//! Which letters are held.

ghost use Rattle.std.specs.Prelude.{◌≡◌};
ghost use Rattle.following.specs.Holding.{is_letter_over, is_to_be_held, has_room_for};

use crate::finding::{is_next_decree, is_next_order, is_parcel};
use crate::letter::HeldLetter;
use crate::report::ExecutorReport;

/// So many orders are held at most, and as many decrees, but for the next one of each.
pub const MOST_LETTERS: usize = 4096;

/// The orders and decrees that are held have so many bytes at most, but for the next one of each: 64 MiB.
pub const MOST_BYTES: u64 = 67108864;

/// Whether the executor needs such a letter no more. It is an order of an earlier epoch or of a number up to the tip, a
/// decree that was obeyed, or a parcel for an executor that follows or that has obeyed a Commit of a later number.
pub fn is_over(report: ExecutorReport, letter: HeldLetter) -> bool
    ensures { result ≡ is_letter_over report letter }
{
    match letter {
        HeldLetter::Order { epoch, number } => {
            epoch < report.epoch
                || number <= report.number
                || number - report.number <= report.chain as u64
        }
        HeldLetter::Commit { place, .. } => place <= report.known,
        HeldLetter::Rollback { place } => place <= report.known,
        HeldLetter::Parcel { number } => !report.is_fetching() || number < report.standing,
    }
}

/// Whether there is room for a letter of `more` bytes, while so many of its kind are held, and so many bytes. One parcel is
/// held at most; its bytes do not count.
fn has_room(letter: HeldLetter, letters: usize, bytes: u64, more: u64) -> bool
    ensures { result ≡ has_room_for letter letters bytes more }
{
    if is_parcel(letter) {
        return letters == 0;
    }
    letters < MOST_LETTERS && bytes <= MOST_BYTES && more <= MOST_BYTES - bytes
}

/// Whether a letter that comes is held: it has `more` bytes, so many letters of its kind are held, and the orders and
/// decrees that are held have so many bytes. Else it is let go. The next order and the next decree are held in any case:
/// with the letters that are held, nothing would go on without them.
pub fn may_hold(
    report: ExecutorReport,
    letter: HeldLetter,
    letters: usize,
    bytes: u64,
    more: u64,
) -> bool
    ensures { result ≡ is_to_be_held report letter letters bytes more }
{
    !is_over(report, letter)
        && (is_next_decree(report, letter)
            || is_next_order(report, letter)
            || has_room(letter, letters, bytes, more))
}
