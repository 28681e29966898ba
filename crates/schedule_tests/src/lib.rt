//! Tests of `events`, `makers` and `schedules` by their public calls: what a file says, line by line,
//! which line is refused, and which events are made at random.
//!
//! A row is a text and what is read of it, in words: see `seen`.
#![tactic(auto)]

#[cfg(test)]
mod configs;
#[cfg(test)]
mod escapes;
#[cfg(test)]
mod files;
#[cfg(test)]
mod large;
#[cfg(test)]
mod lines;
#[cfg(test)]
mod made;
#[cfg(test)]
mod numbers;
#[cfg(test)]
mod refusals;
#[cfg(test)]
mod seen;
