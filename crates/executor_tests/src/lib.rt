//! Tests of `executor` and `workers` by their public calls: batches and records, and the tests with
//! threads, each of which ends by itself and passes whatever the schedule. One prints in which order the
//! steps of its batches were made.
#![tactic(auto)]

#[cfg(test)]
mod gates;
#[cfg(test)]
mod of_executor;
#[cfg(test)]
mod of_gates;
#[cfg(test)]
mod of_workers;
#[cfg(test)]
mod tasks;
