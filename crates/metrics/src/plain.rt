//! The metrics that have one value.

ghost use Rattle.std.specs.Prelude.{◌≡◌};
ghost use Rattle.metrics.specs.Plain.{plain_name, plain_help, plain_type, plain_value};

use crate::metric_type::MetricType;
use figures::Figures;

/// A metric that has one value and no labels.
#[derive(Clone, Copy, Debug, PartialEq, Eq)]
pub enum Plain {
    UptimeSeconds,
    StartSeconds,
    ConnectionsOpen,
    ConnectionsLimit,
    ConnectionsAccepted,
    ConnectionsRefused,
    ConnectionsIdle,
    AcceptFailures,
    BytesRead,
    BytesWritten,
    KeysAsked,
    KeysFound,
    Batches,
    BatchRequests,
    Commits,
    Rollbacks,
    Epoch,
    View,
    StateNumber,
    Suspicions,
    Saves,
    SaveFailures,
    SaveWaiting,
    SaveFailing,
    DataBytes,
    Folders,
    CurrentFolders,
    Items,
    ItemBytes,
    ItemBytesLimit,
    ResidentMemory,
    Refusals,
}

impl Plain {
    /// Its name.
    pub fn name(self) -> &'static str
        ensures { result.now ≡ plain_name self }
    {
        match self {
            Plain::UptimeSeconds => "eve_uptime_seconds",
            Plain::StartSeconds => "process_start_time_seconds",
            Plain::ConnectionsOpen => "eve_connections_open",
            Plain::ConnectionsLimit => "eve_connections_limit",
            Plain::ConnectionsAccepted => "eve_connections_accepted_total",
            Plain::ConnectionsRefused => "eve_connections_refused_total",
            Plain::ConnectionsIdle => "eve_idle_connections_closed_total",
            Plain::AcceptFailures => "eve_accept_failures_total",
            Plain::BytesRead => "eve_bytes_read_total",
            Plain::BytesWritten => "eve_bytes_written_total",
            Plain::KeysAsked => "eve_keys_asked_total",
            Plain::KeysFound => "eve_keys_found_total",
            Plain::Batches => "eve_batches_total",
            Plain::BatchRequests => "eve_batch_requests_total",
            Plain::Commits => "eve_commits_total",
            Plain::Rollbacks => "eve_rollbacks_total",
            Plain::Epoch => "eve_epoch",
            Plain::View => "eve_view",
            Plain::StateNumber => "eve_state_number",
            Plain::Suspicions => "eve_suspicions_total",
            Plain::Saves => "eve_saves_total",
            Plain::SaveFailures => "eve_save_failures_total",
            Plain::SaveWaiting => "eve_save_waiting_messages",
            Plain::SaveFailing => "eve_save_failing",
            Plain::DataBytes => "eve_data_bytes",
            Plain::Folders => "eve_folders",
            Plain::CurrentFolders => "eve_current_folders",
            Plain::Items => "eve_items",
            Plain::ItemBytes => "eve_item_bytes",
            Plain::ItemBytesLimit => "eve_item_bytes_limit",
            Plain::ResidentMemory => "eve_resident_memory_bytes",
            Plain::Refusals => "eve_refusals_total",
        }
    }

    /// What it counts, for a reader.
    pub fn help(self) -> &'static str
        ensures { result.now ≡ plain_help self }
    {
        match self {
            Plain::UptimeSeconds => "Seconds since the start.",
            Plain::StartSeconds =>
                "The moment of the start in seconds since 1970, 0 if it is not known.",
            Plain::ConnectionsOpen => "Connections that are open.",
            Plain::ConnectionsLimit => "The most connections at once.",
            Plain::ConnectionsAccepted => "Connections that were accepted.",
            Plain::ConnectionsRefused =>
                "Connections that were closed at once, at the limit on connections.",
            Plain::ConnectionsIdle =>
                "Connections that were closed since nothing happened on them.",
            Plain::AcceptFailures =>
                "Times that no connection could be accepted, as at the limit on descriptors.",
            Plain::BytesRead => "Bytes read from clients.",
            Plain::BytesWritten => "Bytes written to clients.",
            Plain::KeysAsked => "Keys of get, gets, gat and gats.",
            Plain::KeysFound => "Keys of get, gets, gat and gats that were found.",
            Plain::Batches => "Batches that were cut.",
            Plain::BatchRequests => "Requests that were answered, each once.",
            Plain::Commits => "Batches that were committed.",
            Plain::Rollbacks => "Rollbacks that were decided.",
            Plain::Epoch => "The epoch. Each rollback raises it.",
            Plain::View => "The view of the verifiers. Each change of the leader raises it.",
            Plain::StateNumber => "The number of the last committed state.",
            Plain::Suspicions => "Times that the leader was suspected.",
            Plain::Saves => "Saves to disk that succeeded.",
            Plain::SaveFailures => "Saves to disk that failed.",
            Plain::SaveWaiting => "Messages to connections that wait for a save to disk.",
            Plain::SaveFailing =>
                "1 if the last save to disk failed, so that nothing is answered, else 0.",
            Plain::DataBytes => "Bytes of the files in which all is saved, 0 if nothing is.",
            Plain::Folders => "Folders in which all is saved, each with a copy; 0 if nothing is.",
            Plain::CurrentFolders => "Folders whose copy is of the last save.",
            Plain::Items => "Items in one state.",
            Plain::ItemBytes => "Bytes of the keys and values of all items in one state.",
            Plain::ItemBytesLimit =>
                "The most bytes of keys and values that may be stored, 0 if there is no limit.",
            Plain::ResidentMemory => "Resident memory of the process, 0 if it is not known.",
            Plain::Refusals =>
                "Times that the service was refused memory and left something undone.",
        }
    }

    /// Whether it only grows.
    pub fn metric_type(self) -> MetricType
        ensures { result ≡ plain_type self }
    {
        match self {
            Plain::UptimeSeconds => MetricType::Gauge,
            Plain::StartSeconds => MetricType::Gauge,
            Plain::ConnectionsOpen => MetricType::Gauge,
            Plain::ConnectionsLimit => MetricType::Gauge,
            Plain::ConnectionsAccepted => MetricType::Counter,
            Plain::ConnectionsRefused => MetricType::Counter,
            Plain::ConnectionsIdle => MetricType::Counter,
            Plain::AcceptFailures => MetricType::Counter,
            Plain::BytesRead => MetricType::Counter,
            Plain::BytesWritten => MetricType::Counter,
            Plain::KeysAsked => MetricType::Counter,
            Plain::KeysFound => MetricType::Counter,
            Plain::Batches => MetricType::Counter,
            Plain::BatchRequests => MetricType::Counter,
            Plain::Commits => MetricType::Counter,
            Plain::Rollbacks => MetricType::Counter,
            Plain::Epoch => MetricType::Gauge,
            Plain::View => MetricType::Gauge,
            Plain::StateNumber => MetricType::Gauge,
            Plain::Suspicions => MetricType::Counter,
            Plain::Saves => MetricType::Counter,
            Plain::SaveFailures => MetricType::Counter,
            Plain::SaveWaiting => MetricType::Gauge,
            Plain::SaveFailing => MetricType::Gauge,
            Plain::DataBytes => MetricType::Gauge,
            Plain::Folders => MetricType::Gauge,
            Plain::CurrentFolders => MetricType::Gauge,
            Plain::Items => MetricType::Gauge,
            Plain::ItemBytes => MetricType::Gauge,
            Plain::ItemBytesLimit => MetricType::Gauge,
            Plain::ResidentMemory => MetricType::Gauge,
            Plain::Refusals => MetricType::Counter,
        }
    }

    /// Its value.
    pub fn value(self, figures: &Figures) -> u64
        ensures { result ≡ plain_value figures.now self }
    {
        match self {
            Plain::UptimeSeconds => figures.uptime_seconds,
            Plain::StartSeconds => figures.process.started,
            Plain::ConnectionsOpen => figures.connections.open,
            Plain::ConnectionsLimit => figures.limits.connections,
            Plain::ConnectionsAccepted => figures.connections.accepted,
            Plain::ConnectionsRefused => figures.connections.refused,
            Plain::ConnectionsIdle => figures.connections.idle,
            Plain::AcceptFailures => figures.connections.failed,
            Plain::BytesRead => figures.connections.bytes_read,
            Plain::BytesWritten => figures.connections.bytes_written,
            Plain::KeysAsked => figures.keys.asked,
            Plain::KeysFound => figures.keys.found,
            Plain::Batches => figures.batches.cut,
            Plain::BatchRequests => figures.batches.requests,
            Plain::Commits => figures.batches.committed,
            Plain::Rollbacks => figures.batches.rolled_back,
            Plain::Epoch => figures.replicas.epoch,
            Plain::View => figures.replicas.view,
            Plain::StateNumber => figures.replicas.number,
            Plain::Suspicions => figures.replicas.suspicions,
            Plain::Saves => figures.saves.made,
            Plain::SaveFailures => figures.saves.failed,
            Plain::SaveWaiting => figures.saves.waiting,
            Plain::SaveFailing => figures.saves.failing,
            Plain::DataBytes => figures.saves.bytes,
            Plain::Folders => figures.saves.folders,
            Plain::CurrentFolders => figures.saves.current_folders,
            Plain::Items => figures.memory.items,
            Plain::ItemBytes => figures.memory.item_bytes,
            Plain::ItemBytesLimit => figures.limits.item_bytes,
            Plain::ResidentMemory => figures.memory.resident_bytes,
            Plain::Refusals => figures.memory.refusals,
        }
    }
}
