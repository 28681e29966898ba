//! Tests of `letters` by its public calls: texts by hand, and the letters that are read of them. Each text is also cut at
//! each byte, and read with each of its bits turned: what is cut is refused, and what is changed is refused or is the text
//! of another letter.
#![tactic(auto)]

#[cfg(test)]
mod of_ballots;
#[cfg(test)]
mod of_bodies;
#[cfg(test)]
mod refused;
#[cfg(test)]
mod rows;
#[cfg(test)]
mod sizes;
