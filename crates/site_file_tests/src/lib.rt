//! Tests of `site_file`: whole files for each `u`, a file with one change for each error and each limit, other files of the
//! same site, and the texts of key files. The messages are as an operator sees them.
#![tactic(auto)]

#[cfg(test)]
mod of_identity;
#[cfg(test)]
mod of_keys;
#[cfg(test)]
mod of_limits;
#[cfg(test)]
mod of_refusals;
#[cfg(test)]
mod of_sites;
#[cfg(test)]
mod sample;
