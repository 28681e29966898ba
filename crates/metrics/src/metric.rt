//! The metrics.

ghost use Rattle.std.specs.Prelude.{◌≡◌};
ghost use Rattle.metrics.specs.Metric.{metric_name, metric_help, metric_type_of};

use crate::metric_type::MetricType;
use crate::plain::Plain;

/// How many metrics there are.
pub const METRICS: usize = 48;

/// A metric: one value, or one for each of its labels.
#[derive(Clone, Copy, Debug, PartialEq, Eq)]
pub enum Metric {
    Plain(Plain),
    Commands,
    LinesRefused,
    NodeUp,
    NodeStops,
    FolderCurrent,
    FolderSaves,
    FolderFailures,
    FolderSaved,
    FolderBytes,
    ReplySeconds,
    BatchSeconds,
    BatchWaitSeconds,
    BatchExecuteSeconds,
    BatchAgreeSeconds,
    BatchCommitSeconds,
    SaveSeconds,
}

/// All metrics, in the order in which they are shown.
pub const ALL_METRICS: [Metric; METRICS] = [
    Metric::Plain(Plain::UptimeSeconds),
    Metric::Plain(Plain::StartSeconds),
    Metric::Plain(Plain::ConnectionsOpen),
    Metric::Plain(Plain::ConnectionsLimit),
    Metric::Plain(Plain::ConnectionsAccepted),
    Metric::Plain(Plain::ConnectionsRefused),
    Metric::Plain(Plain::ConnectionsIdle),
    Metric::Plain(Plain::AcceptFailures),
    Metric::Plain(Plain::BytesRead),
    Metric::Plain(Plain::BytesWritten),
    Metric::Commands,
    Metric::LinesRefused,
    Metric::Plain(Plain::KeysAsked),
    Metric::Plain(Plain::KeysFound),
    Metric::Plain(Plain::Batches),
    Metric::Plain(Plain::BatchRequests),
    Metric::Plain(Plain::Commits),
    Metric::Plain(Plain::Rollbacks),
    Metric::Plain(Plain::Epoch),
    Metric::Plain(Plain::View),
    Metric::Plain(Plain::StateNumber),
    Metric::Plain(Plain::Suspicions),
    Metric::NodeUp,
    Metric::NodeStops,
    Metric::Plain(Plain::Saves),
    Metric::Plain(Plain::SaveFailures),
    Metric::Plain(Plain::SaveWaiting),
    Metric::Plain(Plain::SaveFailing),
    Metric::Plain(Plain::DataBytes),
    Metric::Plain(Plain::Folders),
    Metric::Plain(Plain::CurrentFolders),
    Metric::FolderCurrent,
    Metric::FolderSaves,
    Metric::FolderFailures,
    Metric::FolderSaved,
    Metric::FolderBytes,
    Metric::Plain(Plain::Items),
    Metric::Plain(Plain::ItemBytes),
    Metric::Plain(Plain::ItemBytesLimit),
    Metric::Plain(Plain::ResidentMemory),
    Metric::Plain(Plain::Refusals),
    Metric::ReplySeconds,
    Metric::BatchSeconds,
    Metric::BatchWaitSeconds,
    Metric::BatchExecuteSeconds,
    Metric::BatchAgreeSeconds,
    Metric::BatchCommitSeconds,
    Metric::SaveSeconds,
];

impl Metric {
    /// Its name.
    pub fn name(self) -> &'static str
        ensures { result.now ≡ metric_name self }
    {
        match self {
            Metric::Plain(plain) => plain.name(),
            Metric::Commands => "eve_commands_total",
            Metric::LinesRefused => "eve_lines_refused_total",
            Metric::NodeUp => "eve_node_up",
            Metric::NodeStops => "eve_node_stops_total",
            Metric::FolderCurrent => "eve_folder_current",
            Metric::FolderSaves => "eve_folder_saves_total",
            Metric::FolderFailures => "eve_folder_save_failures_total",
            Metric::FolderSaved => "eve_folder_last_save_timestamp_seconds",
            Metric::FolderBytes => "eve_folder_bytes",
            Metric::ReplySeconds => "eve_reply_seconds",
            Metric::BatchSeconds => "eve_batch_seconds",
            Metric::BatchWaitSeconds => "eve_batch_wait_seconds",
            Metric::BatchExecuteSeconds => "eve_batch_execute_seconds",
            Metric::BatchAgreeSeconds => "eve_batch_agree_seconds",
            Metric::BatchCommitSeconds => "eve_batch_commit_seconds",
            Metric::SaveSeconds => "eve_save_seconds",
        }
    }

    /// What it counts, for a reader.
    pub fn help(self) -> &'static str
        ensures { result.now ≡ metric_help self }
    {
        match self {
            Metric::Plain(plain) => plain.help(),
            Metric::Commands => "Commands that were answered, by command and outcome.",
            Metric::LinesRefused =>
                "Lines that were answered by an error or closed the connection, by why.",
            Metric::NodeUp => "Whether the executor or verifier is up.",
            Metric::NodeStops => "Times that the executor or verifier was found down.",
            Metric::FolderCurrent => "Whether the copy in the folder is of the last save.",
            Metric::FolderSaves => "Saves that were made in the folder.",
            Metric::FolderFailures => "Saves that were not made in the folder.",
            Metric::FolderSaved =>
                "The moment of the last save in the folder in seconds since 1970, 0 if none was seen.",
            Metric::FolderBytes => "Bytes of the files in the folder.",
            Metric::ReplySeconds =>
                "Time from when bytes were read to when their replies were written.",
            Metric::BatchSeconds => "Time of a round of the service that answered commands.",
            Metric::BatchWaitSeconds => "Time that a command waited for a proxy to ask it.",
            Metric::BatchExecuteSeconds => "Time in a round while executors ran batches.",
            Metric::BatchAgreeSeconds => "Time in a round from there to the first decree.",
            Metric::BatchCommitSeconds => "Time in a round from there until all letters had come.",
            Metric::SaveSeconds => "Time of a save to disk, also of one that failed.",
        }
    }

    /// Whether it only grows, or has buckets.
    pub fn metric_type(self) -> MetricType
        ensures { result ≡ metric_type_of self }
    {
        match self {
            Metric::Plain(plain) => plain.metric_type(),
            Metric::Commands => MetricType::Counter,
            Metric::LinesRefused => MetricType::Counter,
            Metric::NodeUp => MetricType::Gauge,
            Metric::NodeStops => MetricType::Counter,
            Metric::FolderCurrent => MetricType::Gauge,
            Metric::FolderSaves => MetricType::Counter,
            Metric::FolderFailures => MetricType::Counter,
            Metric::FolderSaved => MetricType::Gauge,
            Metric::FolderBytes => MetricType::Gauge,
            Metric::ReplySeconds => MetricType::Histogram,
            Metric::BatchSeconds => MetricType::Histogram,
            Metric::BatchWaitSeconds => MetricType::Histogram,
            Metric::BatchExecuteSeconds => MetricType::Histogram,
            Metric::BatchAgreeSeconds => MetricType::Histogram,
            Metric::BatchCommitSeconds => MetricType::Histogram,
            Metric::SaveSeconds => MetricType::Histogram,
        }
    }
}
