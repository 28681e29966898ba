//! memcached's meta commands, and what is shown of their replies.

ghost use Rattle.std.specs.Prelude.{◌≡◌, [], ◌++◌, ◌∷◌, OnOk};

use std::alloc::{AllocError, Global};
use std::marker::Model;

/// How many bytes an opaque has at most.
pub const MOST_OPAQUE_BYTES: usize = 31;

/// The meta commands that ask something.
#[derive(Clone, Copy, PartialEq, Eq)]
pub enum Meta {
    /// `mg`.
    Get,
    /// `ms`.
    Set,
    /// `md`.
    Delete,
    /// `ma`, which counts up or down.
    Count,
}

/// What the letter at the beginning of a flag says.
#[derive(Clone, Copy, PartialEq, Eq)]
pub enum Flag {
    /// `v`: the value is shown.
    Value,
    /// `q`: what went as it should is not shown.
    Quiet,
    /// `k`: the key is shown.
    Key,
    /// `O`: the flag itself is shown.
    Opaque,
    /// `f`: the item's flags are shown.
    ItemFlags,
    /// `s`: the size of the value is shown.
    Size,
    /// `c`: the unique is shown.
    Unique,
    /// `T`, with an exptime.
    Exptime,
    /// `F`, with the flags that the item gets.
    NewFlags,
    /// `C`, with the unique that the item has to have.
    Compare,
    /// `D`, with a delta.
    Delta,
    /// `M`, with the mode of `ms` or `ma`.
    Mode,
    /// `u`, `P` and `L`: it says nothing to this server.
    Ignored,
}

/// Some bytes of an answer that the line itself has.
pub struct Word {
    bytes: Vec<u8>,
}

impl Drop for Word {
    fn drop(self) {
        let Word { bytes: _ } = self;
    }
}

impl Model for Word {
    ghost use Rattle.std.specs.Prelude.{List, ℕ};

    ghost Value = { List ℕ };

    ghost view = { λ a. a.bytes.items };
}

impl Word {
    pub fn new(bytes: Vec<u8>) -> Word
        ensures { result ≡ bytes.items }
    {
        Word { bytes }
    }

    /// Its bytes.
    pub fn as_slice(&self) -> &[u8]
        ensures { result.now ≡ self.now }
    {
        self.bytes.as_slice()
    }
}

impl Clone for Word {
    ghost is_clone = { λ word copy. copy ≡ word };

    fn clone(&self) -> Result<Word, AllocError> {
        Ok(Word {
            bytes: self.bytes.clone()?,
        })
    }
}

/// One part of the line of an answer.
#[derive(Drop)]
pub enum Field {
    /// The flags of the item that was found.
    Flags,
    /// The size of its value.
    Size,
    /// Its unique.
    Unique,
    /// The word, whatever the reply is.
    Word(Word),
}

impl Clone for Field {
    ghost is_clone = { λ field copy. copy ≡ field };

    fn clone(&self) -> Result<Field, AllocError> {
        Ok(match self {
            Field::Flags => Field::Flags,
            Field::Size => Field::Size,
            Field::Unique => Field::Unique,
            Field::Word(word) => Field::Word(word.clone()?),
        })
    }
}

/// The parts of the line of an answer, in the order of the flags that ask for them.
pub struct Fields {
    fields: Vec<Field>,
}

impl Drop for Fields {
    fn drop(self) {
        let Fields { fields: _ } = self;
    }
}

impl Model for Fields {
    ghost use Rattle.std.specs.Prelude.{List};
    ghost use Rattle.dialect.specs.declared.meta.Field.{Field};

    ghost Value = { List Field };

    ghost view = { λ a. a.fields.items };
}

impl Fields {
    pub fn new(alloc: Global) -> Fields
        ensures { result ≡ [] }
    {
        Fields {
            fields: Vec::new(alloc),
        }
    }

    /// One more comes at the end.
    pub fn push(&mut self, field: Field) -> Result<(), AllocError>
        ensures { OnOk result (self.new ≡ self.old ++ field ∷ []) }
    {
        self.fields.push(field)?;
        Ok(())
    }

    /// The parts, in order.
    pub fn as_slice(&self) -> &[Field]
        ensures { result.now ≡ self.now }
    {
        self.fields.as_slice()
    }
}

impl Clone for Fields {
    ghost is_clone = { λ fields copy. copy ≡ fields };

    fn clone(&self) -> Result<Fields, AllocError> {
        Ok(Fields {
            fields: self.fields.clone()?,
        })
    }
}

/// What the client of a meta command is shown of its reply.
pub struct MetaShow {
    /// Whether what went as it should is not shown: that something was stored, removed or counted, or that a `mg`
    /// found nothing.
    pub quiet: bool,
    /// Whether the value is shown.
    pub value: bool,
    pub fields: Fields,
}

impl Drop for MetaShow {
    fn drop(self) {
        let MetaShow {
            quiet: _,
            value: _,
            fields: _,
        } = self;
    }
}

impl Clone for MetaShow {
    ghost is_clone = { λ show copy. copy ≡ show };

    fn clone(&self) -> Result<MetaShow, AllocError> {
        Ok(MetaShow {
            quiet: self.quiet,
            value: self.value,
            fields: self.fields.clone()?,
        })
    }
}
