//! What is kept of a service.

ghost use Rattle.std.specs.Prelude.{◌≡◌};

use ensemble::ProcessRecord;
use std::marker::Model;

/// What is kept of a service at one moment: of its replicas and proxies, and the number of the next connection. The
/// service of another process goes on from it (`Service::reopen`).
pub struct ServiceRecord {
    replicas: ProcessRecord,
    next: u64,
}

impl Drop for ServiceRecord {
    fn drop(self) {
        let ServiceRecord {
            replicas: _,
            next: _,
        } = self;
    }
}

impl Model for ServiceRecord {
    ghost use Rattle.service.specs.Record.{RecordView};

    ghost Value = { RecordView };

    ghost view = { λ r. record { replicas = r.replicas; next = r.next } };
}

impl ServiceRecord {
    ghost use Rattle.std.specs.Prelude.{◌≡◌};

    /// The record of these replicas and proxies. The next connection has this number at least.
    pub fn of(replicas: ProcessRecord, next: u64) -> ServiceRecord
        ensures { result ≡ record { replicas = replicas; next = next } }
    {
        ServiceRecord { replicas, next }
    }

    /// What is kept of the replicas and the proxies.
    pub fn replicas(&self) -> &ProcessRecord
        ensures { result.now ≡ self.now.replicas }
    {
        &self.replicas
    }

    /// The least number that the next connection may have. The event loop numbers connections from there on.
    pub fn next(&self) -> u64
        ensures { result ≡ self.now.next }
    {
        self.next
    }

    /// What is kept of the replicas and the proxies, by value.
    pub fn into_replicas(self) -> ProcessRecord
        ensures { result ≡ self.replicas }
    {
        let ServiceRecord { replicas, next: _ } = self;
        replicas
    }
}
