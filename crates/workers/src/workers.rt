ghost use Rattle.std.specs.Prelude.{◌≡◌, ◌≤◌, ◌&&◌, Some, None, nat_le, if◌then◌else◌};
ghost use Rattle.workers.specs.declared.workers.TheConstants.{MOST_WORKERS};

use std::marker::Model;

/// The most threads that work at once.
pub const MOST_WORKERS: usize = 16;

/// How many threads work at once on the steps of a group, and how many then on the digests of what it
/// wrote: 1 to 16 each, the caller's thread being one of them. A digest costs as much as many steps, so
/// a batch may be worth threads for the one and not for the other.
#[derive(Clone, Copy)]
pub struct Workers {
    on_steps: usize,
    on_digests: usize,
}

impl Model for Workers {
    ghost use Rattle.std.specs.Prelude.{ℕ, ◌≤◌};
    ghost use Rattle.workers.specs.declared.workers.TheConstants.{MOST_WORKERS};

    ghost Value = { ℕ × ℕ };

    ghost view = { λ w. (w.on_steps, w.on_digests) };

    ghost inverse = { λ p. record { on_steps = p.0; on_digests = p.1 } };

    ghost invariant = { λ w. (1 ≤ w.on_steps) × (w.on_steps ≤ MOST_WORKERS) × (1 ≤ w.on_digests) × (w.on_digests ≤ MOST_WORKERS) };
}

fn is_few(count: usize) -> bool
    ensures { result ≡ (nat_le 1 count && nat_le count MOST_WORKERS) }
{
    1 <= count && count <= MOST_WORKERS
}

impl Workers {
    /// That many workers for steps, and as many for digests. `None` unless they are 1 to 16.
    pub fn new(count: usize) -> Option<Workers>
        ensures { result ≡ (if nat_le 1 count && nat_le count MOST_WORKERS then Some (count, count) else None) }
    {
        if is_few(count) {
            Some(Workers {
                on_steps: count,
                on_digests: count,
            })
        } else {
            None
        }
    }

    /// As many for steps, and that many for digests. `None` unless these are 1 to 16.
    pub fn with_digests(self, count: usize) -> Option<Workers>
        ensures { result ≡ (if nat_le 1 count && nat_le count MOST_WORKERS then Some (self.0, count) else None) }
    {
        if is_few(count) {
            Some(Workers {
                on_steps: self.on_steps,
                on_digests: count,
            })
        } else {
            None
        }
    }

    /// How many work on steps, from 1 to 16.
    pub fn on_steps(self) -> usize
        ensures count { result ≡ self.0 }
        ensures some { 1 ≤ result }
        ensures few { result ≤ MOST_WORKERS }
    {
        self.on_steps
    }

    /// How many work on digests, from 1 to 16.
    pub fn on_digests(self) -> usize
        ensures count { result ≡ self.1 }
        ensures some { 1 ≤ result }
        ensures few { result ≤ MOST_WORKERS }
    {
        self.on_digests
    }
}
