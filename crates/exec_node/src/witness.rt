//! An executor cannot be dropped, since its chain cannot: this file would not compile, if it could.

use crate::node::ExecNode;
use exec_lines::ExecutorRecord;
use keeper::MemKeeper;

/// If an executor could be dropped, these two would overlap.
trait HasToBeEnded {}

impl HasToBeEnded for ExecNode<MemKeeper<ExecutorRecord>> {}

impl<T: Drop> HasToBeEnded for T {}
