//! Tests of `merkle` and `item_tree`: rows worked by another program, orders of writes, and each call that asks for
//! memory made once with ample memory.
#![tactic(auto)]

#[cfg(test)]
mod entries;
#[cfg(test)]
mod of_differences;
#[cfg(test)]
mod of_orders;
#[cfg(test)]
mod of_rows;
#[cfg(test)]
mod of_stores;
