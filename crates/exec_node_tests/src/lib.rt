//! Tests of `exec_node` by its public calls: executors alone, and their records, of today and of
//! version 1.
#![tactic(auto)]

#[cfg(test)]
mod old_bytes;
#[cfg(test)]
mod old_chains;
#[cfg(test)]
mod old_parcels;
#[cfg(test)]
mod old_records;
#[cfg(test)]
mod records;
#[cfg(test)]
mod tests;
