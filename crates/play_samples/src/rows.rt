//! The functions do nothing: what each says is its contract.

ghost use Rattle.std.specs.Prelude.{◌≡◌, [], ◌∷◌, codes};
ghost use Rattle.batches.specs.declared.batch.Batch.{Batch};
ghost use Rattle.decrees.specs.declared.decree.Decree.TheVariants.{Commit, Rollback};
ghost use Rattle.agreement_laws.specs.ChosenList.{chosen};
ghost use Rattle.run_laws.specs.Chosen.{commits, known_by};
ghost use Rattle.one_server_laws.specs.Served.{IsServed};
ghost use Rattle.play_samples.specs.Plays.{bytes, two, two_rounds, undone_letters, decree, before, later_letters};

/// One verifier, which accepts two batches. Rounds with these tokens are those that the decrees name, and
/// their replies are what the client was given.
pub fn two_batches_are_served()
    ensures chosen { chosen 0 two ≡ Commit 1 (bytes 1) ∷ Commit 2 (bytes 2) ∷ [] }
    ensures each { (b : Batch) → (c : Batch) → known_by (two_rounds b c) ≡ commits (chosen 0 two) }
    ensures served { (b : Batch) → (c : Batch) → IsServed (two_rounds b c) 1 (codes "set n 0 0 1\r\n1\r\nincr n 1\r\n") (codes "STORED\r\n2\r\n") }
{}

/// The executors come to three tokens, so a Rollback is chosen. In the next epoch two of them come to one,
/// and a Commit of number 1 is chosen at the second place: a run of these decrees has one round, that of the
/// batch made again.
pub fn undone_is_made_again()
    ensures chosen { chosen 1 undone_letters ≡ Rollback ∷ Commit 1 (bytes 4) ∷ [] }
    ensures round { commits (chosen 1 undone_letters) ≡ (1, bytes 4) ∷ [] }
{}

/// Verifier 1 alone accepts in view 0, so nothing is chosen. Verifier 2 leads view 2 and proposes what was
/// accepted, and with it and verifier 1 it is chosen.
pub fn accepted_is_chosen_later()
    ensures before { chosen 1 before ≡ [] }
    ensures chosen { chosen 1 later_letters ≡ decree ∷ [] }
{}
