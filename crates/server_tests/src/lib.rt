//! Tests of `server` over loopback, of `streams` over readers and writers in memory, and of `housekeeping`.
#![tactic(auto)]

#[cfg(test)]
mod of_limits;
#[cfg(test)]
mod of_rows;
#[cfg(test)]
mod of_server;
#[cfg(test)]
mod of_serving;
#[cfg(test)]
mod of_streams;
#[cfg(test)]
#[cfg(test)]
mod talking;
