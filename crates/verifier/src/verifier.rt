ghost use Rattle.std.specs.Prelude.{◌≡◌, ◌*◌, ◌+◌, ◌-◌, ◌^◌, ◌<◌, ◌≤◌, ◌⊎◌, Some, None, IfOk, IfErr, IsOk, OnErr, OnOk, Err, IsErr, IsTrue, not, length, true, false, []};
ghost use Rattle.verifier.specs.Step.{fits_line};
ghost use Rattle.verifier.specs.Record.{record_text, IsRecord};
ghost use Rattle.verifier.specs.State.{VerifierState, known};
ghost use Rattle.verifier.specs.Lines.{restarted};
ghost use Rattle.verifier.specs.Verifier.{VerifierView, Opens, IsUnreadable, Stored, handled, outcome, IsAtLimit};
ghost use Rattle.wire.specs.Record.{Refused};
ghost use Rattle.keeper.specs.Kept.{TriesToSave};

use crate::input::Input;
use crate::restore::restore;
use crate::state::State;
use base::Text;
use decrees::{Ballot, Letter};
use keeper::{Keeper, save_record};
use proto::Fault;
use std::alloc::Global;
use std::marker::Model;

/// The state of the verifier whose record this text is.
fn read_back(alloc: Global, u: u8, id: u8, text: &Text) -> Result<State, Fault>
    ensures ok { IfOk result (IsRecord u id text.now) }
    ensures err { IfErr result (λ fault. Refused fault ((s : VerifierState) → IsRecord u id text.now s → ⊥)) }
{
    let bytes = text.joined(alloc)?;
    restore(alloc, u, id, &bytes)
}

/// What the keeper's record gives, if it has one.
fn stored<K: Keeper<Text>>(alloc: Global, u: u8, id: u8, keeper: &K) -> Option<Result<State, Fault>>
    ensures { Stored u id (K.saved keeper.now) result }
{
    match keeper.load() {
        None => None,
        Some(text) => Some(read_back(alloc, u, id, text)),
    }
}

/// Saves the record of this state. If a failure could not be counted it is Stopped at once.
fn save<K: Keeper<Text>>(
    alloc: Global,
    u: u8,
    id: u8,
    state: &State,
    keeper: &mut K,
) -> Result<(), Fault>
    ensures tries { TriesToSave K.saved K.failed K.told (record_text u id state.now) keeper.old keeper.new result }
    ensures no_memory { result ≡ Err Fault.NoMemory → K.failed keeper.new ≡ K.failed keeper.old }
    ensures stopped { result ≡ Err Fault.Stopped → (K.failed keeper.old < K.failed keeper.new) ⊎ (K.failed keeper.old ≡ 2 ^ 64 - 1) }
    ensures only { IfErr result (λ fault. (fault ≡ Fault.NoMemory) ⊎ (fault ≡ Fault.Stopped)) }
{
    let record = state.record(alloc, u, id)?;
    save_record(record, keeper)
}

/// A verifier. It is ended by `end`, which gives its keeper back.
#[derive(Drop)]
pub struct Verifier<K: Keeper<Text>> {
    id: u8,
    u: u8,
    state: State,
    stopped: bool,
    keeper: K,
}

impl<K: Keeper<Text>> Model for Verifier<K> {
    ghost use Rattle.std.specs.Prelude.{◌<◌, ◌≤◌, ◌*◌, not};
    ghost use Rattle.verifier.specs.Verifier.{VerifierView};

    ghost Value = { VerifierView };

    ghost view = { λ v. record { id = v.id; u = v.u; state = v.state; up = not v.stopped; saved = K.saved v.keeper; failures = K.failed v.keeper; told = K.told v.keeper } };

    ghost invariant = { λ v. v.u < 4 };
}

impl<K: Keeper<Text>> Verifier<K> {
    ghost use Rattle.std.specs.Prelude.{◌≡◌, ◌*◌, ◌+◌, ◌-◌, ◌^◌, ◌<◌, ◌≤◌, ◌⊎◌, Some, None, IfOk, IfErr, IsOk, IsSome, OnErr, OnOk, Err, IsErr, IsTrue, not, length, true, false, []};
    ghost use Rattle.std.specs.Borrow.{sem};
    ghost use Rattle.verifier.specs.Step.{fits_line};
    ghost use Rattle.verifier.specs.State.{known};
    ghost use Rattle.verifier.specs.Lines.{restarted};
    ghost use Rattle.verifier.specs.Verifier.{VerifierView, Opens, IsUnreadable, handled, outcome, IsAtLimit};
    ghost use Rattle.verifier.specs.Lent.{LendsKeeper};
    ghost use Rattle.keeper.specs.Kept.{CountsFailures};

    /// Opens the verifier `id` of `2u + 1`. If the keeper has no record it is new, and its first
    /// record is saved. Else it goes on from its record, which it leaves as it is, and asks the others
    /// for what it does not know.
    ///
    /// BadRecord: the record is not one of this verifier. Stopped: there was no record, and the first
    /// save failed, or its failure could not be counted. NoMemory: an allocation failed, and no save
    /// failed. A refused call hands the keeper back with the record as before; one that had a record
    /// is handed back untouched. Whether the next save is set to fail stays as it was, unless a save
    /// failed, which spends it.
    pub fn open(
        alloc: Global,
        u: u8,
        id: u8,
        keeper: K,
    ) -> Result<(Verifier<K>, Vec<Letter<Ballot>>), (Fault, K)>
        requires few { u < 4 }
        requires member { id ≤ 2 * u }
        ensures opened { IfOk result (λ opened. Opens u id (K.saved keeper) (K.failed keeper) (K.told keeper) opened.0 opened.1.items) }
        ensures as_told { K.saved keeper ≡ None → IsTrue (K.told keeper) → IsErr result }
        ensures unreadable { IfErr result (λ refused. refused.0 ≡ Fault.BadRecord → IsUnreadable u id (K.saved keeper)) }
        ensures stopped { IfErr result (λ refused. refused.0 ≡ Fault.Stopped → (K.saved keeper ≡ None) × ((K.failed keeper < K.failed refused.1) ⊎ (K.failed keeper ≡ 2 ^ 64 - 1))) }
        ensures none_failed { IfErr result (λ refused. refused.0 ≡ Fault.NoMemory → K.failed refused.1 ≡ K.failed keeper) }
        ensures untouched { IsSome (K.saved keeper) → IfErr result (λ refused. refused.1 ≡ keeper) }
        ensures saved { IfErr result (λ refused. K.saved refused.1 ≡ K.saved keeper) }
        ensures failures { IfErr result (λ refused. CountsFailures (K.failed keeper) (K.told keeper) (K.failed refused.1) (K.told refused.1)) }
        ensures only { IfErr result (λ refused. (refused.0 ≡ Fault.NoMemory) ⊎ (refused.0 ≡ Fault.BadRecord) ⊎ (refused.0 ≡ Fault.Stopped)) }
    {
        match stored(alloc, u, id, &keeper) {
            None => Verifier::begin(alloc, u, id, keeper),
            Some(Ok(state)) => Verifier::go_on(alloc, u, id, state, keeper),
            Some(Err(fault)) => Err((fault, keeper)),
        }
    }

    fn begin(
        alloc: Global,
        u: u8,
        id: u8,
        mut keeper: K,
    ) -> Result<(Verifier<K>, Vec<Letter<Ballot>>), (Fault, K)>
        requires few { u < 4 }
        requires no_record { K.saved keeper ≡ None }
        ensures opened { IfOk result (λ opened. Opens u id None (K.failed keeper) (K.told keeper) opened.0 opened.1.items) }
        ensures as_told { IsTrue (K.told keeper) → IsErr result }
        ensures only { IfErr result (λ refused. (refused.0 ≡ Fault.NoMemory) ⊎ (refused.0 ≡ Fault.Stopped)) }
        ensures stopped { IfErr result (λ refused. refused.0 ≡ Fault.Stopped → (K.failed keeper < K.failed refused.1) ⊎ (K.failed keeper ≡ 2 ^ 64 - 1)) }
        ensures none_failed { IfErr result (λ refused. refused.0 ≡ Fault.NoMemory → K.failed refused.1 ≡ K.failed keeper) }
        ensures saved { IfErr result (λ refused. K.saved refused.1 ≡ K.saved keeper) }
        ensures failures { IfErr result (λ refused. CountsFailures (K.failed keeper) (K.told keeper) (K.failed refused.1) (K.told refused.1)) }
    {
        let Ok(state) = State::first(alloc, u, id) else {
            return Err((Fault::NoMemory, keeper));
        };
        match save(alloc, u, id, &state, &mut keeper) {
            Err(fault) => Err((fault, keeper)),
            Ok(()) => {
                let verifier = Verifier {
                    id,
                    u,
                    state,
                    stopped: false,
                    keeper,
                };
                Ok((verifier, Vec::new(alloc)))
            }
        }
    }

    fn go_on(
        alloc: Global,
        u: u8,
        id: u8,
        state: State,
        keeper: K,
    ) -> Result<(Verifier<K>, Vec<Letter<Ballot>>), (Fault, K)>
        requires few { u < 4 }
        ensures opened { IfOk result (λ opened. (opened.0 ≡ record { id = id; u = u; state = state; up = true; saved = K.saved keeper; failures = K.failed keeper; told = K.told keeper }) × (opened.1.items ≡ (restarted u id state).letters)) }
        ensures only { IfErr result (λ refused. (refused.0 ≡ Fault.NoMemory) × (refused.1 ≡ keeper)) }
    {
        match state.restarted(alloc, u, id) {
            Err(_) => Err((Fault::NoMemory, keeper)),
            Ok(letters) => {
                let verifier = Verifier {
                    id,
                    u,
                    state,
                    stopped: false,
                    keeper,
                };
                Ok((verifier, letters))
            }
        }
    }

    /// Does the step of the input, saves what has to be saved, and gives the letters.
    fn step_and_save(&mut self, alloc: Global, input: Input) -> Result<Vec<Letter<Ballot>>, Fault>
        ensures done { IfOk result (λ letters. self.new ≡ handled self.old input) }
        ensures letters { IfOk result (λ letters. letters.items ≡ (outcome self.old input).letters) }
        ensures few { OnOk result (length self.new.state.log < 2 ^ 32) }
        ensures numbered { OnOk result (known self.new.state + 1 < 2 ^ 64) }
        ensures fits_none { IsTrue (not (fits_line self.old.state input)) → IsOk result }
        ensures as_told { IsTrue self.old.told → IsTrue (outcome self.old input).saves → IsErr result }
        ensures same { OnErr result ((self.new.id ≡ self.old.id) × (self.new.u ≡ self.old.u)) }
        ensures old_record { OnErr result (self.new.saved ≡ self.old.saved) }
        ensures failures { CountsFailures self.old.failures self.old.told self.new.failures self.new.told }
        ensures unsaved { (outcome self.old input).saves ≡ false → self.new.failures ≡ self.old.failures }
        ensures no_memory { result ≡ Err Fault.NoMemory → self.new.failures ≡ self.old.failures }
        ensures stopped { result ≡ Err Fault.Stopped → (self.old.failures < self.new.failures) ⊎ IsAtLimit self.old input }
        ensures only { IfErr result (λ fault. (fault ≡ Fault.NoMemory) ⊎ (fault ≡ Fault.Stopped)) }
    {
        let outcome = self.state.step(alloc, self.u, self.id, input)?;
        prove!(self.state.known() < u64::MAX);
        prove!(self.state.count() <= u32::MAX as usize);
        if outcome.saves {
            save(alloc, self.u, self.id, &self.state, &mut self.keeper)?;
        }
        Ok(outcome.letters)
    }

    /// Does the step of the input, and gives its letters in order. What has to be saved is saved
    /// before they leave. An input that fits no line of the step changes nothing.
    ///
    /// After an error the verifier is stopped for good, and its record is the old one; if it was
    /// stopped before, nothing of it changes. Stopped: it was stopped before, or a save failed, or a
    /// counter is at its limit; NoMemory: an allocation failed in this call, and no save. A save
    /// that is set to fail does, and none fails if the step saves nothing. Whether the next save is
    /// set to fail stays as it was, unless a save failed, which spends it.
    pub fn handle(&mut self, alloc: Global, input: Input) -> Result<Vec<Letter<Ballot>>, Fault>
        ensures done { IfOk result (λ letters. self.new ≡ handled self.old input) }
        ensures letters { IfOk result (λ letters. letters.items ≡ (outcome self.old input).letters) }
        ensures few { OnOk result (length self.new.state.log < 2 ^ 32) }
        ensures numbered { OnOk result (known self.new.state + 1 < 2 ^ 64) }
        ensures fits_none { IsTrue self.old.up → IsTrue (not (fits_line self.old.state input)) → IsOk result }

        // After an error.
        ensures ends { OnErr result (IsTrue (not self.new.up)) }
        ensures same { OnErr result ((self.new.id ≡ self.old.id) × (self.new.u ≡ self.old.u)) }
        ensures old_record { OnErr result (self.new.saved ≡ self.old.saved) }
        ensures failures { CountsFailures self.old.failures self.old.told self.new.failures self.new.told }
        ensures unsaved { (outcome self.old input).saves ≡ false → self.new.failures ≡ self.old.failures }

        // When each comes.
        ensures stopped_before { IsTrue (not self.old.up) → result ≡ Err Fault.Stopped }
        ensures unchanged { IsTrue (not self.old.up) → self.new ≡ self.old }
        ensures as_told { IsTrue self.old.told → IsTrue (outcome self.old input).saves → IsErr result }
        ensures save_failed { self.old.failures < self.new.failures → result ≡ Err Fault.Stopped }
        ensures stopped { result ≡ Err Fault.Stopped → IsTrue (not self.old.up) ⊎ (self.old.failures < self.new.failures) ⊎ IsAtLimit self.old input }
        ensures only { IfErr result (λ fault. (fault ≡ Fault.NoMemory) ⊎ (fault ≡ Fault.Stopped)) }
    {
        if self.stopped {
            return Err(Fault::Stopped);
        }
        let letters = self.step_and_save(alloc, input);
        self.stopped = letters.is_err();
        letters
    }

    /// Whether it was not stopped.
    pub fn is_up(&self) -> bool
        ensures { result ≡ self.now.up }
    {
        !self.stopped
    }

    /// Its view.
    pub fn view(&self) -> u64
        ensures { result ≡ self.now.state.view }
    {
        self.state.view()
    }

    /// How many decrees it knows, those that it has forgotten too.
    pub fn known(&self) -> u64
        ensures { result ≡ known self.now.state }
    {
        self.state.known()
    }

    /// The place up to which it has forgotten decrees; 0 if it has forgotten none.
    pub fn start(&self) -> u64
        ensures { result ≡ self.now.state.start.place }
    {
        self.state.start()
    }

    /// Lends the keeper.
    pub fn keeper(&mut self) -> &mut K
        ensures* writes_back { sem 𝓛 (LendsKeeper K.row K.Keeper self.entry result) }
        ensures saved { K.saved result.now ≡ self.old.saved }
        ensures failed { K.failed result.now ≡ self.old.failures }
        ensures told { K.told result.now ≡ self.old.told }
    {
        &mut self.keeper
    }

    /// The keeper, to look at.
    pub fn kept(&self) -> &K
        ensures saved { K.saved result.now ≡ self.now.saved }
        ensures failed { K.failed result.now ≡ self.now.failures }
        ensures told { K.told result.now ≡ self.now.told }
    {
        &self.keeper
    }

    /// Ends it, and gives its keeper back.
    pub fn end(self) -> K
        ensures saved { K.saved result ≡ self.saved }
        ensures failed { K.failed result ≡ self.failures }
        ensures told { K.told result ≡ self.told }
    {
        let Verifier { keeper, .. } = self;
        keeper
    }
}
