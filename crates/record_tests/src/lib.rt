//! Tests of records by their public reads: which bytes are a record, and which are none. Each kind of
//! record is also cut at each byte, and read with each byte changed in turn: what is cut is refused, and
//! what is changed is refused or is the record of another value.
#![tactic(auto)]

#[cfg(test)]
mod of_states;
#[cfg(test)]
mod of_transfer;
#[cfg(test)]
mod of_wire;
#[cfg(test)]
mod rows;
