//! The types of metrics.

ghost use Rattle.std.specs.Prelude.{◌≡◌};
ghost use Rattle.metrics.specs.MetricType.{type_name};

/// What a metric's values mean.
#[derive(Clone, Copy, Debug, PartialEq, Eq)]
pub enum MetricType {
    /// It only grows.
    Counter,
    /// It goes up and down.
    Gauge,
    /// It has a count for each bucket.
    Histogram,
}

impl MetricType {
    /// Its name in a TYPE line.
    pub fn name(self) -> &'static str
        ensures { result.now ≡ type_name self }
    {
        match self {
            MetricType::Counter => "counter",
            MetricType::Gauge => "gauge",
            MetricType::Histogram => "histogram",
        }
    }
}
