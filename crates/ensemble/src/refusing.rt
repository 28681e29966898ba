//! What could not be done for want of memory, or because a bound was reached.

ghost use Rattle.std.specs.Prelude.{◌<◌, ◌≤◌, ◌-◌, ◌^◌};

/// One thing more was refused. The count stays at 2^64 - 1.
pub fn refuse(refused: &mut u64)
    ensures counted { refused.old ≤ refused.new }
    ensures more { refused.old < 2 ^ 64 - 1 → refused.old < refused.new }
{
    *refused = refused.saturating_add(1);
}
