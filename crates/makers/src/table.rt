//! Which event three words make.

ghost use Rattle.std.specs.Prelude.{◌≡◌, ◌≤◌, ◌+◌, ◌%◌};
ghost use Rattle.makers.specs.Table as spec;

use events::{Config, Event, Replica};

/// How many executors there are, and how many verifiers: at most 7.
fn replicas(config: &Config) -> u32
    ensures counted { result ≡ spec.replicas config.now }
    ensures few { result ≤ 7 }
{
    2 * u32::from(config.u()) + 1
}

/// The number of an executor, or of a verifier.
fn replica_number(config: &Config, word: u32) -> u8
    ensures { result ≡ spec.replica_number config.now word }
{
    (word % replicas(config)) as u8
}

/// An executor or a verifier, executors first.
fn any_replica(config: &Config, word: u32) -> Replica
    ensures { result ≡ spec.any_replica config.now word }
{
    let replicas = replicas(config);
    let number = word % (2 * replicas);
    if number < replicas {
        Replica::Executor(number as u8)
    } else {
        Replica::Verifier((number - replicas) as u8)
    }
}

/// A letter that was sent comes, if any was sent.
fn any_letter(sent: u64, word: u32) -> Option<Event>
    ensures { result ≡ spec.any_letter sent word }
{
    if sent == 0 {
        return None;
    }
    Some(Event::Deliver {
        letter: 1 + u64::from(word) % sent,
    })
}

/// A client, from 1 on.
fn any_client(config: &Config, word: u32) -> u16
    ensures { result ≡ 1 + word % config.now.clients }
{
    1 + (word % u32::from(config.clients())) as u16
}

/// The event that these words make.
#[tactic(auto, unfolding(crate::specs::Table::random_event))]
pub fn event_of(config: &Config, sent: u64, a: u32, b: u32, c: u32) -> Option<Event>
    ensures { result ≡ spec.random_event config.now sent a b c }
{
    Some(match a % 16 {
        0..=7 => return any_letter(sent, b),
        8 => Event::Step {
            executor: replica_number(config, b),
            place: c % 64,
        },
        9 => Event::Finish {
            executor: replica_number(config, b),
        },
        10 => Event::Cut {
            executor: replica_number(config, b),
            moment: 1000 + c % 1000,
        },
        11 => Event::Again {
            client: any_client(config, b),
        },
        12 => Event::Suspect {
            verifier: replica_number(config, b),
        },
        13 => Event::Crash(any_replica(config, b)),
        14 => Event::Restart(any_replica(config, b)),
        _ => Event::FailSave(any_replica(config, b)),
    })
}
