//! Tags are compared.

ghost use Rattle.std.specs.Prelude.{◌≡◌, ◌↔◌, length, IsTrue};

/// A number that has each bit in which the two differ at some place.
fn differences(left: &[u8], right: &[u8]) -> u8
    requires { length left.now ≡ length right.now }
    ensures { (result ≡ 0) ↔ (left.now ≡ right.now) }
{
    let mut bits = 0;
    for (x, y) in left.iter().zip(right) {
        bits |= *x ^ *y;
    }
    bits
}

/// Whether two tags are the same. It looks at all bytes of both, wherever they differ, so that its time does not help
/// who guesses a tag.
pub fn are_same(left: &[u8], right: &[u8]) -> bool
    ensures { IsTrue result ↔ (left.now ≡ right.now) }
{
    left.len() == right.len() && differences(left, right) == 0
}
