//! What holds of an ensemble when its process ends, and another process begins with what was kept: laws.

ghost use Rattle.std.specs.Prelude.{List, Option, Some};
ghost use Rattle.ensemble.specs.Ensemble.{EnsembleView, IsEnsemble};
ghost use Rattle.ensemble.specs.Kept.{ProcessView, process_of, NoneIsLost, begun_with};
ghost use Rattle.ensemble.specs.Process.{reopened_ensemble, ensemble_after, IsEnsembleAfter};
ghost use Rattle.ensemble.specs.Steps.{AreEnsembleSteps, last_ensemble};

use slots::a_run_is_steps;

/// A process may end between any two calls. If another one begins with what the keepers of its replicas had and what its
/// proxies asked, with all replicas down and no letter under way, then that is an ensemble with all that was asked and
/// answered before. Each replica has crashed, and `Ensemble::restart` opens it.
///
/// No code calls it: it is for readers.
pub fn a_process_comes_back()
    ensures { (e : EnsembleView) → IsEnsemble e → NoneIsLost e.nodes → IsEnsemble (record e { nodes = begun_with (process_of e.nodes) }) }
{}

/// The ensemble of a process that begins with what was found follows each ensemble of which that was kept. It holds
/// whatever was found.
pub fn a_reopened_ensemble_follows()
    ensures { (found : ProcessView) → IsEnsembleAfter (Some found) (reopened_ensemble found) }
{}

/// It stays so in each of these steps. They are those of which calls are made: each call of `Ensemble` keeps it.
///
/// No code calls it: it is for readers.
pub fn an_ensemble_goes_on_after_a_process()
    ensures { (found : Option ProcessView) (e : EnsembleView) (later : List EnsembleView) → AreEnsembleSteps e later
        → IsEnsembleAfter found e → IsEnsembleAfter found (last_ensemble e later) }
{
    a_run_is_steps();
}

/// Of processes one after the other, each of which began with what was kept of the one before it, all that was asked and
/// answered is of one ensemble.
///
/// No code calls it: it is for readers.
pub fn processes_follow_each_other()
    ensures { (found : Option ProcessView) (e later : EnsembleView) → IsEnsembleAfter found e → NoneIsLost e.nodes
        → IsEnsembleAfter (Some (process_of e.nodes)) later → IsEnsembleAfter found (ensemble_after e later) }
{}
