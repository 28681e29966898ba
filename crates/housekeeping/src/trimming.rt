//! When a verifier forgets old decrees.

ghost use Rattle.std.specs.Prelude.{◌≡◌, ◌↔◌, ◌≤◌, ◌+◌, IsSome, IfSome};
ghost use Rattle.housekeeping.specs.declared.trimming.TheConstants.{MOST_DECREES, LEFT_DECREES};

/// A verifier's log is trimmed when it has so many decrees. They take some 6 KB in memory and in the record, which each
/// save of a folder writes.
pub const MOST_DECREES: u64 = 64;

/// So many decrees stay. A node that missed fewer is sent each of them. Any other node is sent what stands, and an
/// executor then fetches the state, whose pages it shares with the others of its process.
pub const LEFT_DECREES: u64 = 32;

/// The place up to which a verifier forgets decrees, that knows `known` of them and has forgotten those up to
/// the place `start`: there is one if it has `MOST_DECREES` or more, and `LEFT_DECREES` stay behind it.
pub fn due_trim(start: u64, known: u64) -> Option<u64>
    ensures due { IsSome result ↔ (start + MOST_DECREES ≤ known) }
    ensures left { IfSome result (λ place. place + LEFT_DECREES ≡ known) }
{
    if known.saturating_sub(start) < MOST_DECREES {
        return None;
    }
    Some(known - LEFT_DECREES)
}
