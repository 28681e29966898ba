//! Tests of `exec_lines` by its public calls, with ample memory. In most, one of three executors may fail. Each
//! thing that the table of an executor's steps says is a script: what an executor is given, row by row, and what
//! it does then. The modules have the scripts, and `script` plays them.
//!
//! What a step does is compared as a short text, in which each letter has a mark, the number of the
//! node that it goes to and what it says: see `seen`.
#![tactic(auto)]

#[cfg(test)]
mod adopting;
#[cfg(test)]
mod asked;
#[cfg(test)]
mod chains;
#[cfg(test)]
mod fetching;
#[cfg(test)]
mod given;
#[cfg(test)]
mod meeting;
#[cfg(test)]
mod obeying;
#[cfg(test)]
mod ordering;
#[cfg(test)]
mod parts;
#[cfg(test)]
mod records;
#[cfg(test)]
mod refusals;
#[cfg(test)]
mod refused_runs;
#[cfg(test)]
mod script;
#[cfg(test)]
mod seen;
#[cfg(test)]
mod senders;
#[cfg(test)]
mod threads;
#[cfg(test)]
mod told;
#[cfg(test)]
mod told_kept;
#[cfg(test)]
mod working;
