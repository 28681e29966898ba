//! Tests of `client` by its public calls: a row for each thing that the table of a client's part says,
//! with ample memory. One of three executors may fail.
//!
//! A row says what is handed in, the bytes that the client is given, and what is asked of each executor:
//! see `handed` and `seen`.
#![tactic(auto)]

#[cfg(test)]
mod asking;
#[cfg(test)]
mod asking_again;
#[cfg(test)]
mod closing;
#[cfg(test)]
mod handed;
#[cfg(test)]
mod hangups;
#[cfg(test)]
mod large;
#[cfg(test)]
mod refusals;
#[cfg(test)]
mod replies;
#[cfg(test)]
mod seen;
#[cfg(test)]
mod talks;
#[cfg(test)]
mod texts;
