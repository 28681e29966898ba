//! How large a world is.

ghost use Rattle.std.specs.Prelude.{◌≡◌, ◌↔◌, ◌<◌, ◌≤◌, IfOk, IfErr, Err};
ghost use Rattle.events.specs.Config.{IsConfig};
ghost use Rattle.events.specs.declared.config.TheConstants.{MOST_CLIENTS};

use proto::Fault;
use std::marker::Model;

/// How many clients there are at most: a letter has a client's number in 16 bits, and 0 is none's.
pub const MOST_CLIENTS: u16 = 65535;

/// How large a world is: of its `2u + 1` executors, and of as many verifiers, `u` may fail; and how
/// many clients there are.
#[derive(Clone, Copy)]
pub struct Config {
    u: u8,
    clients: u16,
}

impl Model for Config {
    ghost use Rattle.events.specs.Config.{ConfigView, IsConfig};

    ghost Value = { ConfigView };

    ghost view = { λ c. record { u = c.u; clients = c.clients } };

    ghost inverse = { λ c. record { u = c.u; clients = c.clients } };

    ghost invariant = { λ c. IsConfig (record { u = c.u; clients = c.clients }) };
}

impl Config {
    /// Of `2u + 1` executors, as many verifiers, and so many clients. `BadSchedule` comes exactly if
    /// `u` is above 3, or the clients are not 1 to `MOST_CLIENTS`. It is the only error.
    pub fn new(u: u8, clients: u16) -> Result<Config, Fault>
        ensures ok { IfOk result (λ config. config ≡ record { u = u; clients = clients }) }
        ensures bad { result ≡ Err Fault.BadSchedule ↔ (IsConfig (record { u = u; clients = clients }) → ⊥) }
        ensures only { IfErr result (λ fault. fault ≡ Fault.BadSchedule) }
    {
        if u < 4 && 1 <= clients && clients <= MOST_CLIENTS {
            Ok(Config { u, clients })
        } else {
            Err(Fault::BadSchedule)
        }
    }

    /// How many of the executors, and of the verifiers, may fail: 0 to 3.
    pub fn u(&self) -> u8
        ensures given { result ≡ self.now.u }
        ensures few { result < 4 }
    {
        self.u
    }

    /// How many clients there are: 1 to `MOST_CLIENTS`.
    pub fn clients(&self) -> u16
        ensures given { result ≡ self.now.clients }
        ensures some_clients { 1 ≤ result }
        ensures not_too_many { result ≤ MOST_CLIENTS }
    {
        self.clients
    }
}
