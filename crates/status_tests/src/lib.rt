//! Tests of `figures`, `metrics`, `status` and `status_server` by their public calls, with ample memory.
//!
//! Each line of the metrics is parsed by the grammar of Prometheus' text form, which is written here anew; the
//! answers to requests are rows of a request and the beginning of its response; and the status port is asked over
//! loopback by clients that are slow, silent or too many.
#![tactic(auto)]

#[cfg(test)]
mod grammar;
#[cfg(test)]
mod of_answers;
#[cfg(test)]
mod of_history;
#[cfg(test)]
mod of_metrics;
#[cfg(test)]
mod of_server;
#[cfg(test)]
mod samples;
