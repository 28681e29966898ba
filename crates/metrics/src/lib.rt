//! Figures in Prometheus' text form (version 0.0.4).
//!
//! It is built on `figures`. The layer above uses `metrics_of`, whose contract gives each byte of the text: the
//! HELP and the TYPE line of each metric, and a line for each of its values. What is shown of each folder of `--data` is
//! no figure of the service, and is handed in beside the figures (`Folders`).
#![tactic(auto)]

mod families;
mod folder;
mod metric;
mod metric_type;
mod number;
mod plain;
mod sample;

pub use families::metrics_of;
pub use folder::{FolderFigures, Folders, MOST_FOLDERS};
pub use metric::{ALL_METRICS, METRICS, Metric};
pub use metric_type::MetricType;
pub use plain::Plain;
pub use sample::{Labels, Number, Role, Sample, Suffix};
