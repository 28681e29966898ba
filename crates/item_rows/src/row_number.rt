ghost use Rattle.std.specs.Prelude.{◌≡◌, ◌<◌, ◌^◌, pos};
ghost use Rattle.item_rows.specs.Row.{first_bits, row_number_of};

use pages::page_of;
use proto::Key;
use sha2::{Digest, Sha256};

/// The first 55 bits of the path of the key, as a number.
fn first_bits(key: &Key) -> u64
    ensures bits { result ≡ first_bits key.now }
    ensures small { result < 2 ^ 55 }
{
    let hash = Sha256::digest(key.as_slice());
    match hash.split_first_chunk::<8>() {
        Some((front, _)) => u64::from_be_bytes(*front) >> 9,
        None => 0,
    }
}

/// The number of the row of an item with this key: the number of the key's page, and then the first 55 bits of its path. So
/// rows in the order of their numbers are in the order of pages, and in each page in the order of paths. It is below 2^63.
pub fn row_number_of(key: &Key) -> i64
    ensures { result ≡ pos (row_number_of key.now) }
{
    let page = page_of(key) as u64;
    (page * (1 << 55) + first_bits(key)) as i64
}
