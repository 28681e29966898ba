//! The record of an executor.

ghost use Rattle.std.specs.Prelude.{◌≡◌, ◌++◌, IfOk, OnOk, IfSome};
ghost use Rattle.decrees.specs.Record.{standing_text};
ghost use Rattle.exec_lines.specs.Record.{executor_text, saved_text};
ghost use Rattle.exec_lines.specs.Kept.{saved_record};

use crate::state::State;
use base::Text;
use decrees::Standing;
use keeper::ToText;
use rollback::SavedChain;
use std::alloc::{AllocError, Global};
use std::marker::Model;
use std::sync::Arc;
use wire::Record;

/// The version that records are written in, and the kind.
const MARKS: [u8; 2] = [2, b'E'];

/// What is saved of an executor's state.
pub struct Saved {
    pub u: u8,
    pub id: u8,
    pub known: u64,
    pub standing: Standing,
    pub chain: SavedChain,
}

impl Drop for Saved {
    fn drop(self) {
        let Saved {
            u: _,
            id: _,
            known: _,
            standing: _,
            chain: _,
        } = self;
    }
}

/// A record that was made of a state, or one whose bytes were read.
#[derive(Drop)]
enum Kept {
    Shared(Arc<Saved, Global>),
    Bytes(Text),
}

/// The record of an executor, to be kept. One that is made of a state shares all of it, and is
/// written only when it is asked for its text.
///
/// Contracts see the text that it stands for.
pub struct ExecutorRecord {
    kept: Kept,
}

impl Drop for ExecutorRecord {
    fn drop(self) {
        let ExecutorRecord { kept: _ } = self;
    }
}

impl Model for ExecutorRecord {
    ghost use Rattle.std.specs.Prelude.{List, ℕ};

    ghost Value = { List ℕ };

    ghost use Rattle.exec_lines.specs.Kept.{kept_state_text};

    ghost view = { λ r. kept_state_text r.kept };
}

/// Writes what the decrees stand for.
fn put_standing(standing: &Standing, whole: &mut Text) -> Result<(), AllocError>
    ensures { OnOk result (whole.new ≡ whole.old ++ standing_text standing.now) }
{
    standing.n.put(whole)?;
    standing.token.put(whole)?;
    standing.epoch.put(whole)?;
    standing.start.put(whole)
}

impl Saved {
    /// Writes its text. It shares the texts that are kept of the pages and of the sessions.
    fn text(&self, alloc: Global) -> Result<Text, AllocError>
        ensures { IfOk result (λ text. text ≡ saved_text self.now.u self.now.id self.now.known self.now.standing self.now.chain) }
    {
        let mut whole = Text::new(alloc);
        whole.put(&MARKS)?;
        self.id.put(&mut whole)?;
        self.u.put(&mut whole)?;
        self.known.put(&mut whole)?;
        put_standing(&self.standing, &mut whole)?;
        self.chain.put(alloc, &mut whole)?;
        Ok(whole)
    }
}

impl ExecutorRecord {
    /// The record of these bytes, as they were read. Nothing is said of whether they are one.
    pub fn of_text(text: Text) -> ExecutorRecord
        ensures { result ≡ text }
    {
        ExecutorRecord {
            kept: Kept::Bytes(text),
        }
    }

    /// The record of what is saved. It is written only when it is asked for its text. The only error is a failed
    /// allocation.
    pub fn of_saved(alloc: Global, saved: Saved) -> Result<ExecutorRecord, AllocError>
        ensures { IfOk result (λ found. found ≡ saved_record saved) }
    {
        Ok(ExecutorRecord {
            kept: Kept::Shared(Arc::new(alloc, saved)?),
        })
    }

    /// What was saved, if the record was made of a state in this process. `None`: it has the bytes alone.
    pub fn saved(&self) -> Option<&Saved>
        ensures { IfSome result (λ saved. self.now ≡ saved_record saved.now) }
    {
        match &self.kept {
            Kept::Shared(saved) => Some(saved),
            Kept::Bytes(_) => None,
        }
    }
}

impl ToText for ExecutorRecord {
    ghost text = { λ bytes. bytes };

    fn to_text(&self, alloc: Global) -> Result<Text, AllocError> {
        match &self.kept {
            Kept::Shared(saved) => saved.text(alloc),
            Kept::Bytes(text) => text.clone(),
        }
    }

    fn share(&self) -> Result<ExecutorRecord, AllocError> {
        let kept = match &self.kept {
            Kept::Shared(saved) => Kept::Shared(Arc::try_clone(saved)?),
            Kept::Bytes(text) => Kept::Bytes(text.clone()?),
        };
        Ok(ExecutorRecord { kept })
    }
}

impl State {
    /// The record. It shares the pages, the sessions and the batches. No text is written.
    pub fn record(&self, alloc: Global, u: u8, id: u8) -> Result<ExecutorRecord, AllocError>
        ensures { IfOk result (λ text. text ≡ executor_text u id self.now) }
    {
        let saved = Saved {
            u,
            id,
            known: self.known,
            standing: self.standing,
            chain: self.chain.saved(alloc)?,
        };
        Ok(ExecutorRecord {
            kept: Kept::Shared(Arc::new(alloc, saved)?),
        })
    }
}
