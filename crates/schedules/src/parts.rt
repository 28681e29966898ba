//! Texts in parts.

ghost use Rattle.std.specs.Prelude.{◌≡◌};
ghost use Rattle.std.specs.Option.{option_map};
ghost use Rattle.schedules.specs.Parts as spec;

use memchr::memchr;

/// What is before the first byte that is `separator`, and what is after it.
pub fn parted(separator: u8, text: &[u8]) -> Option<(&[u8], &[u8])>
    ensures { option_map (λ p. (p.0.now, p.1.now)) result ≡ spec.parted separator text.now }
{
    match memchr(separator, text) {
        None => None,
        Some(at) => {
            let (front, rest) = text.split_at(at);
            let (_, after) = rest.split_at(1);
            Some((front, after))
        }
    }
}
