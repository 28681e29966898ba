//! The text of a log, kept beside its decrees, so that a record of it copies little.

ghost use Rattle.std.specs.Prelude.{◌≡◌, ◌∷◌, ◌++◌, [], OnOk, OnErr, IfOk};
ghost use Rattle.decrees.specs.Record.{commit_text, decree_text, decrees_text};

use crate::decree::Decree;
use base::Text;
use std::alloc::{AllocError, Global};
use std::marker::Model;
use std::sync::Arc;

/// A piece that is shared has so many decrees. What a save copies is the tail behind the last piece: 5 KB at most.
const PIECE: usize = 128;

/// A joined piece has so many decrees, and is made of such pieces.
const JOINED: usize = 32 * PIECE;

/// Texts of decrees in joined pieces, then in pieces of 128 decrees, and a tail. A text that appends
/// it shares the pieces, fewer than 32 and one for each 4,096 decrees, and copies the tail.
pub struct LogText {
    joined: Text,
    recent: Text,
}

impl Drop for LogText {
    fn drop(self) {
        let LogText {
            joined: _,
            recent: _,
        } = self;
    }
}

impl Model for LogText {
    ghost use Rattle.std.specs.Prelude.{List, ℕ, ◌++◌};

    ghost Value = { List ℕ };

    ghost view = { λ t. t.joined ++ t.recent };
}

/// Appends the text of a Commit, or nothing if an allocation fails.
fn append_commit(text: &mut Text, n: u64, token: &[u8; 32]) -> Result<(), AllocError>
    ensures ok { OnOk result (text.new ≡ text.old ++ 1 ∷ commit_text (n, token.now)) }
    ensures err { OnErr result (text.new ≡ text.old) }
{
    let [b0, b1, b2, b3, b4, b5, b6, b7] = n.to_be_bytes();
    text.put_two(&[1, b0, b1, b2, b3, b4, b5, b6, b7], token)
}

/// Appends the text of the decree, or nothing if an allocation fails.
fn append_decree(text: &mut Text, decree: &Decree) -> Result<(), AllocError>
    ensures ok { OnOk result (text.new ≡ text.old ++ decree_text decree.now) }
    ensures err { OnErr result (text.new ≡ text.old) }
{
    match decree {
        Decree::Rollback => text.put(&[0u8]),
        Decree::Commit { n, token } => append_commit(text, *n, &token.0),
    }
}

impl LogText {
    /// The text of no decree.
    pub fn new(alloc: Global) -> LogText
        ensures { result ≡ [] }
    {
        LogText {
            joined: Text::new(alloc),
            recent: Text::new(alloc),
        }
    }

    /// Makes one piece of what was not joined yet. The bytes stay the same, whether or not there is
    /// memory for it.
    fn join(&mut self, alloc: Global) -> Result<(), AllocError>
        ensures { self.new ≡ self.old }
    {
        let bytes = self.recent.joined(alloc)?;
        let piece = match Arc::new(alloc, bytes) {
            Ok(piece) => piece,
            Err(failed) => {
                drop(failed.value);
                return Err(AllocError);
            }
        };
        self.joined.share(&piece)?;
        self.recent = Text::new(alloc);
        Ok(())
    }

    /// Begins the next piece, if the texts of so many decrees fill one. The bytes stay the same.
    fn cut(&mut self, alloc: Global, known: usize) -> Result<(), AllocError>
        ensures { self.new ≡ self.old }
    {
        if known == 0 || known % PIECE != 0 {
            return Ok(());
        }
        if known % JOINED == 0 {
            return self.join(alloc);
        }
        self.recent.seal()
    }

    /// Appends the text of the decree that comes after so many others. If an allocation fails
    /// nothing is appended.
    pub fn push(&mut self, alloc: Global, known: usize, decree: &Decree) -> Result<(), AllocError>
        ensures ok { OnOk result (self.new ≡ self.old ++ decree_text decree.now) }
        ensures err { OnErr result (self.new ≡ self.old) }
    {
        self.cut(alloc, known)?;
        append_decree(&mut self.recent, decree)
    }

    /// The text of these decrees.
    pub fn of(alloc: Global, decrees: &[Decree]) -> Result<LogText, AllocError>
        ensures { IfOk result (λ text. text ≡ decrees_text decrees.now) }
    {
        let mut text = LogText::new(alloc);
        for known in 0..decrees.len() {
            text.push(alloc, known, &decrees[known])?;
        }
        Ok(text)
    }

    /// Appends it to the text, and shares its pieces. If an allocation fails a part may be there.
    pub fn append_to(&self, text: &mut Text) -> Result<(), AllocError>
        ensures { OnOk result (text.new ≡ text.old ++ self.now) }
    {
        text.append(&self.joined)?;
        text.append(&self.recent)
    }
}
