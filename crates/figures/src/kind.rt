//! The kinds of commands.

ghost use Rattle.std.specs.Prelude.{◌≡◌, ◌<◌, Some, slice_get};
ghost use Rattle.figures.specs.Kind.{kind_of_asked, kind_of_update, kind_of_verb, kind_place, kind_name, kind_has};
ghost use Rattle.figures.specs.declared.kind.TheConstants.{KINDS, ALL_KINDS};

use crate::outcome::Outcome;
use proto::{Command, StoreVerb, Update};

/// How many kinds of commands there are.
pub const KINDS: usize = 14;

/// Which command it is, without its keys and values.
#[derive(Clone, Copy, Debug, PartialEq, Eq)]
pub enum Kind {
    Get,
    Gets,
    Gat,
    Gats,
    Set,
    Add,
    Replace,
    Append,
    Prepend,
    Cas,
    Delete,
    Touch,
    Incr,
    Decr,
}

/// All of them, each at its place.
pub const ALL_KINDS: [Kind; KINDS] = [
    Kind::Get,
    Kind::Gets,
    Kind::Gat,
    Kind::Gats,
    Kind::Set,
    Kind::Add,
    Kind::Replace,
    Kind::Append,
    Kind::Prepend,
    Kind::Cas,
    Kind::Delete,
    Kind::Touch,
    Kind::Incr,
    Kind::Decr,
];

fn of_verb(verb: StoreVerb) -> Kind
    ensures { result ≡ kind_of_verb verb }
{
    match verb {
        StoreVerb::Set => Kind::Set,
        StoreVerb::Add => Kind::Add,
        StoreVerb::Replace => Kind::Replace,
        StoreVerb::Append => Kind::Append,
        StoreVerb::Prepend => Kind::Prepend,
    }
}

fn of_update(update: &Update) -> Kind
    ensures { result ≡ kind_of_update update.now }
{
    match update {
        Update::Store { verb, .. } => of_verb(*verb),
        Update::Cas { .. } => Kind::Cas,
        Update::Delete { .. } => Kind::Delete,
        Update::Touch { .. } => Kind::Touch,
        Update::Incr { .. } => Kind::Incr,
        Update::Decr { .. } => Kind::Decr,
    }
}

impl Kind {
    /// The kind of a command.
    pub fn of(command: &Command) -> Kind
        ensures { result ≡ kind_of_asked command.now }
    {
        match command {
            Command::Get(_) => Kind::Get,
            Command::Gets(_) => Kind::Gets,
            Command::Gat(_, _) => Kind::Gat,
            Command::Gats(_, _) => Kind::Gats,
            Command::Update(update) => of_update(update),
        }
    }

    /// The name of the command in the protocol.
    pub fn name(self) -> &'static str
        ensures { result.now ≡ kind_name self }
    {
        match self {
            Kind::Get => "get",
            Kind::Gets => "gets",
            Kind::Gat => "gat",
            Kind::Gats => "gats",
            Kind::Set => "set",
            Kind::Add => "add",
            Kind::Replace => "replace",
            Kind::Append => "append",
            Kind::Prepend => "prepend",
            Kind::Cas => "cas",
            Kind::Delete => "delete",
            Kind::Touch => "touch",
            Kind::Incr => "incr",
            Kind::Decr => "decr",
        }
    }

    /// Whether the protocol has this outcome for the command.
    pub fn has(self, outcome: Outcome) -> bool
        ensures { result ≡ kind_has self outcome }
    {
        match self {
            Kind::Get | Kind::Gets | Kind::Gat | Kind::Gats => {
                matches!(outcome, Outcome::Hit | Outcome::Miss)
            }
            Kind::Set => matches!(outcome, Outcome::Stored),
            Kind::Add | Kind::Replace => matches!(outcome, Outcome::Stored | Outcome::NotStored),
            Kind::Append | Kind::Prepend => {
                matches!(
                    outcome,
                    Outcome::Stored | Outcome::NotStored | Outcome::TooLarge
                )
            }
            Kind::Cas => matches!(
                outcome,
                Outcome::Stored | Outcome::Exists | Outcome::NotFound
            ),
            Kind::Delete => matches!(outcome, Outcome::Deleted | Outcome::NotFound),
            Kind::Touch => matches!(outcome, Outcome::Touched | Outcome::NotFound),
            Kind::Incr | Kind::Decr => {
                matches!(
                    outcome,
                    Outcome::Counted | Outcome::NotFound | Outcome::NotNumber
                )
            }
        }
    }

    /// Where its counts are kept.
    pub(crate) fn place(self) -> usize
        ensures place { result ≡ kind_place self }
        ensures below { result < KINDS }
        ensures listed { slice_get ALL_KINDS result ≡ Some self }
    {
        match self {
            Kind::Get => 0,
            Kind::Gets => 1,
            Kind::Gat => 2,
            Kind::Gats => 3,
            Kind::Set => 4,
            Kind::Add => 5,
            Kind::Replace => 6,
            Kind::Append => 7,
            Kind::Prepend => 8,
            Kind::Cas => 9,
            Kind::Delete => 10,
            Kind::Touch => 11,
            Kind::Incr => 12,
            Kind::Decr => 13,
        }
    }
}
