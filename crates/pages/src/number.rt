ghost use Rattle.std.specs.Prelude.{◌≡◌, ◌≤◌, ◌<◌, length, sum};
ghost use Rattle.pages.specs.Page.{page_number, page_count};

use proto::Key;
use token::PAGES;

fn byte_sum(bytes: &[u8]) -> u32
    requires { length bytes.now ≤ 250 }
    ensures { result ≡ sum bytes.now }
{
    bytes.iter().map(|b| u32::from(*b)).sum()
}

/// The number of the page of the key, from 0: the sum of its bytes modulo `PAGES`.
pub fn page_of(key: &Key) -> usize
    ensures number { result ≡ page_number key.now }
    ensures small { result < page_count }
{
    byte_sum(key.as_slice()) as usize % PAGES
}
