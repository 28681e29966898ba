//! What is kept of a service when its process ends, and the service of a process that begins with it.

ghost use Rattle.std.specs.Prelude.{◌≡◌, ◌⊎◌, ◌<◌, ◌≤◌, ◌^◌, Err, IfOk, IfErr, length};
ghost use Rattle.service.specs.Steps.{NoneWaits};

use crate::counting::Counting;
use crate::nodes::Nodes;
use crate::pool::Pool;
use crate::service::Service;
use crate::service_record::ServiceRecord;
use connections::{Connections, Dialect};
use ensemble::{Ensemble, ProcessRecord};
use ghost_log::GhostLog;
use proto::Fault;
use std::alloc::Global;
use std::collections::VecDeque;

/// The proxies of the record, none of which waits for anything.
fn pool_of(alloc: Global, replicas: &ProcessRecord) -> Result<Pool, Fault>
    ensures none { IfOk result (λ pool. NoneWaits pool) }
    ensures bad { result ≡ Err Fault.BadRecord → 2 ^ 16 ≤ length replicas.now.proxies }
    ensures only { IfErr result (λ fault. (fault ≡ Fault.NoMemory) ⊎ (fault ≡ Fault.BadRecord)) }
{
    let Ok(count) = u16::try_from(replicas.proxy_count()) else {
        return Err(Fault::BadRecord);
    };
    Ok(Pool::new(alloc, count)?)
}

impl Service {
    ghost use Rattle.std.specs.Prelude.{◌≡◌, ◌⊎◌, ◌≤◌, ◌^◌, Err, IfOk, IfErr, length};
    ghost use Rattle.service.specs.Process.{kept_service, HasAll};
    ghost use Rattle.service.specs.Record.{kept_in, IsBegunWith};

    /// What is kept of it at this moment, if its process ends then. A service that is reopened with it (`reopen`) goes on
    /// from here: what was asked, answered and given up to now stays so, and what comes after now never was. So a reply
    /// may leave the process once a record of its moment, or of a later one, is where another process finds it.
    ///
    /// Nothing changes. Stopped: a replica is lost for good, which no call here leads to; NoMemory: an allocation failed.
    pub fn record(&self, alloc: Global) -> Result<ServiceRecord, Fault>
        ensures kept { IfOk result (λ r. kept_in self.now.connections.dialect r ≡ kept_service self.now) }
        ensures all { IfOk result (λ r. HasAll self.now) }
        ensures only { IfErr result (λ fault. (fault ≡ Fault.NoMemory) ⊎ (fault ≡ Fault.Stopped)) }
    {
        let replicas = self.ensemble.record(alloc)?;
        Ok(ServiceRecord::of(replicas, self.connections.next()))
    }

    /// The service of a process that begins with this record. No connection is here, and the numbers of connections go on
    /// where those of the record ended. What connections send is read in this grammar. All replicas are down: the first
    /// `tick` opens them. What proxies had outstanding is asked again until it is answered, and nobody is given the reply.
    ///
    /// If there is a limit of bytes (`set_limit`), storage commands are refused until an executor is up and all pages of
    /// items were looked at, which is once, before the first piece is read then.
    ///
    /// NoMemory: an allocation failed; BadRecord: the record is of more than 65,535 proxies.
    pub fn reopen(alloc: Global, kept: ServiceRecord, dialect: Dialect) -> Result<Service, Fault>
        ensures begun { IfOk result (λ s. IsBegunWith (kept_in dialect kept) s) }
        ensures bad { result ≡ Err Fault.BadRecord → 2 ^ 16 ≤ length kept.replicas.proxies }
        ensures only { IfErr result (λ fault. (fault ≡ Fault.NoMemory) ⊎ (fault ≡ Fault.BadRecord)) }
    {
        let u = kept.replicas().u();
        let pool = pool_of(alloc, kept.replicas())?;
        let nodes = Nodes::new(alloc, u)?;
        let connections = Connections::from(alloc, dialect, kept.next());
        let ensemble = Ensemble::reopen(alloc, kept.into_replicas())?;
        Ok(Service {
            ensemble,
            connections,
            queue: VecDeque::new(alloc),
            pool,
            nodes,
            u,
            suspicions: 0,
            counting: Counting::reopened(),
            refused: 0,
            assignments: GhostLog::new(),
        })
    }
}
