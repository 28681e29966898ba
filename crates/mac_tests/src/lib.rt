//! Tests of `mac`: the tags of RFC 4231, all at once and in pieces.
#![tactic(auto)]

#[cfg(test)]
mod tags;
