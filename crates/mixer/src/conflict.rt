//! Which commands must not run at once.

ghost use Rattle.std.specs.Prelude.{◌≡◌, take};
ghost use Rattle.mixer.specs.Groups.{is_read as reads, keys_seen as seen, shares_key, conflicts};

use proto::{Command, Key};
use std::slice;

/// Whether one of the commands changes a key that the mixer sees of both.
pub fn conflict(a: &Command, b: &Command) -> bool
    ensures { result ≡ conflicts a.now b.now }
{
    !(is_read(a) && is_read(b)) && share_key(keys_seen(a), keys_seen(b))
}

fn is_read(command: &Command) -> bool
    ensures { result ≡ reads command.now }
{
    match command {
        Command::Get(_) => true,
        Command::Gets(_) => true,
        Command::Gat(_, _) => false,
        Command::Gats(_, _) => false,
        Command::Update(_) => false,
    }
}

/// The keys that the mixer looks at: the first two.
fn keys_seen(command: &Command) -> &[Key]
    ensures { result.now ≡ seen command.now }
{
    match command {
        Command::Get(keys) => first_two(keys.as_slice()),
        Command::Gets(keys) => first_two(keys.as_slice()),
        Command::Gat(_, keys) => first_two(keys.as_slice()),
        Command::Gats(_, keys) => first_two(keys.as_slice()),
        Command::Update(update) => slice::from_ref(update.key()),
    }
}

fn first_two(keys: &[Key]) -> &[Key]
    ensures { result.now ≡ take 2 keys.now }
{
    &keys[..keys.len().min(2)]
}

fn share_key(keys: &[Key], others: &[Key]) -> bool
    ensures { result ≡ shares_key keys.now others.now }
{
    keys.iter().any(|key| others.contains(key))
}
