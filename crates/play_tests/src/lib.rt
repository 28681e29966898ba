//! Tests of `app` by its public call: statuses, streams that fail, large blocks, and a node that stops
//! after each event. What a schedule shows is in the rows of `play_rows`.
#![tactic(auto)]

#[cfg(test)]
mod blocks;
#[cfg(test)]
mod crashes;
#[cfg(test)]
mod failing;
#[cfg(test)]
mod played;
#[cfg(test)]
mod statuses;
