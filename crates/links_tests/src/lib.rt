//! Tests of `links`: bounds, lives, the bytes of messages, and runs of two ends over connections that end at any byte.
#![tactic(auto)]

#[cfg(test)]
mod bounds;
#[cfg(test)]
mod lives;
#[cfg(test)]
mod messages;
#[cfg(test)]
mod runs;
#[cfg(test)]
mod texts;
