//! Tests of `transfer` by its public calls: states that are handed over with ample memory, and the
//! bytes of the records, worked by hand.
#![tactic(auto)]

#[cfg(test)]
mod handing_over;
#[cfg(test)]
mod records;
#[cfg(test)]
mod rows;
