//! Tests of `items`, `item_steps` and `pages`: commands on stores of pages, and the digests of these.
//!
//! They call what is public, and are in a crate of their own: a crate that has tests is proved once
//! more with them. Each call that asks for memory is made once with ample memory, which no contract can promise.
#![tactic(auto)]

#[cfg(test)]
mod changes;
#[cfg(test)]
mod of_item_steps;
#[cfg(test)]
mod of_items;
#[cfg(test)]
mod of_layouts;
#[cfg(test)]
mod of_page_texts;
#[cfg(test)]
mod of_pages;
