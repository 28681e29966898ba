//! Which letters are bulk, and how long letters may be.

ghost use Rattle.std.specs.Prelude.{◌≡◌};
ghost use Rattle.letters.specs.Letter.{letter_text};
ghost use Rattle.letters.specs.Size.{is_bulk_letter, is_long_letter};

use crate::letter::write;
use decrees::Letter;
use exec_lines::Body;
use wire::Counter;

/// The most bytes of a letter that is not bulk.
pub const MOST_QUICK_BYTES: usize = 64 * 1024;

/// The most bytes of a letter that is no parcel. An order of 64 requests with 1 MiB of data each is 4 MiB shorter, and so is
/// a reply with as many items.
pub const MOST_BULK_BYTES: usize = 68 * 1024 * 1024;

/// Whether the text of the letter is longer than that of a quick one may be. It takes no memory.
fn is_long(letter: &Letter<Body>) -> bool
    ensures { result ≡ is_long_letter letter.now }
{
    let mut counter = Counter::new();
    match write(letter, &mut counter) {
        Ok(()) => MOST_QUICK_BYTES < counter.count(),
        Err(never) => match never {},
    }
}

/// Whether the letter is bulk: a parcel, or a letter whose text has more than `MOST_QUICK_BYTES`. Bulk letters have a
/// connection of their own between two members, so that no ballot waits for one. It takes no memory, and does not go over
/// the items of a parcel.
pub fn is_bulk(letter: &Letter<Body>) -> bool
    ensures { result ≡ is_bulk_letter letter.now }
{
    match &letter.body {
        Body::Parcel(_) => true,
        Body::Want(_) | Body::Order(_) | Body::Reply { .. } | Body::Need(_) | Body::Ballot(_) => {
            is_long(letter)
        }
    }
}
