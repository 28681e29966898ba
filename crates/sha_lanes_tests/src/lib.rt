//! Tests of `sha_lanes`: the examples of FIPS 180-4, and texts of many lengths against `sha2`.
#![tactic(auto)]

#[cfg(test)]
mod of_lengths;
#[cfg(test)]
mod of_rows;
