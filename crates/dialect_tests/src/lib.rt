//! Tests of `dialect`: what streams ask, by rows that were taken from memcached 1.6.18 and from a program
//! that its clients were tried against, and each call that asks for memory made once with ample memory.
#![tactic(auto)]

#[cfg(test)]
mod meta_rows;
#[cfg(test)]
mod meta_shown;
#[cfg(test)]
mod rows;
#[cfg(test)]
mod shown;
#[cfg(test)]
mod streams;
#[cfg(test)]
mod tell;
#[cfg(test)]
mod told;
