//! A chain cannot be dropped, since its members cannot: this file would not compile, if it could.

use crate::chain::Chain;

/// If a chain could be dropped, these two would overlap.
trait HasToBeEnded {}

impl HasToBeEnded for Chain {}

impl<T: Drop> HasToBeEnded for T {}
