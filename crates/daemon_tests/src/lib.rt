//! Tests of `daemon` by its public calls.
#![tactic(auto)]

#[cfg(test)]
mod of_lines;
#[cfg(test)]
mod of_report;
#[cfg(test)]
mod of_settings;
