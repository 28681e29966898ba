//! What ticks say one after the other. The call does nothing: what it says is its contract.

ghost use Rattle.std.specs.Prelude.{◌≡◌, ◌<◌, ◌≤◌, ◌*◌, ℕ, List, length};
ghost use Rattle.suspicion.specs.declared.observed.Observed.{Observed};
ghost use Rattle.suspicion.specs.declared.suspicion.Suspicion.{Suspicion};
ghost use Rattle.suspicion.specs.declared.suspicion.TheConstants.{LEAST_PATIENCE};
ghost use Rattle.suspicion.specs.Run.{KnowsNoMore, SuspectsNever};

/// After a suspicion, the ten ticks that follow bring no other one, unless a decree was obeyed. This is of any member whose
/// wait begins anew, and whose patience was doubled: so it is after a suspicion.
///
/// No code calls it: it is for readers.
pub fn two_are_a_second_apart()
    ensures { (u : ℕ) (s : Suspicion) (looks : List Observed) → s.quiet ≡ 0 → 1 < s.factor → KnowsNoMore s.known looks → length looks ≤ 2 * LEAST_PATIENCE → SuspectsNever u s looks }
{}
