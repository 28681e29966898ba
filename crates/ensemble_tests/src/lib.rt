//! Tests of `ensemble` by its public calls: a process that ends, and another one that begins with what was kept of it.
#![tactic(auto)]

#[cfg(test)]
mod asking;
#[cfg(test)]
mod processes;
#[cfg(test)]
mod stage;
