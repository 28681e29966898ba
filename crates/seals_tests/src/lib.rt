//! Tests of `seals`: frames and keys that another program made, bytes cut anywhere, and bytes that are refused.
#![tactic(auto)]

#[cfg(test)]
mod rows;
#[cfg(test)]
mod streams;
