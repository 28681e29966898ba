//! What is seen of a slot from outside.

ghost use Rattle.std.specs.Prelude.{◌≡◌, IfOk, Some};
ghost use Rattle.std.specs.Option.{option_map};
ghost use Rattle.slots.specs.Status.{kept_at, is_gone, status_of, executor_report, verifier_report, node_at, WaitsFor};

use crate::executor_slot::KeptExecutor;
use crate::kept_node::KeptNode;
use crate::node_slot::NodeSlot;
use crate::slot::Slot;
use crate::verifier_slot::KeptVerifier;
use exec_lines::{NextWork, Report};
use keeper::MemKeeper;
use std::alloc::AllocError;

/// Whether a replica is there, and how far it is.
#[derive(Clone, Copy)]
pub enum Status<R> {
    Up(R),
    Down,
    /// It is lost for good.
    Lost,
}

/// How far a verifier is.
#[derive(Clone, Copy)]
pub struct VerifierReport {
    /// How many decrees it knows.
    pub decrees: u64,
    pub view: u64,
}

impl<N: KeptNode> NodeSlot<N> {
    /// The replica, if it is up.
    pub fn node(&self) -> Option<&N>
        ensures { option_map (λ node. node.now) result ≡ node_at self.now }
    {
        match &self.slot {
            Slot::Up(node) => Some(node),
            _ => None,
        }
    }

    /// A keeper that has what is kept of the replica, whether it is up, down or lost. The record is shared.
    pub fn kept(&self) -> Result<MemKeeper<N::Record>, AllocError>
        ensures { IfOk result (λ keeper. keeper ≡ kept_at N.kept self.now) }
    {
        match &self.slot {
            Slot::Up(node) => node.share_kept(),
            Slot::Down(keeper) => keeper.share(),
            Slot::Gone(keeper) => keeper.share(),
        }
    }

    /// Whether the replica is lost for good.
    pub fn is_lost(&self) -> bool
        ensures { result ≡ is_gone (Some self.now) }
    {
        match &self.slot {
            Slot::Up(_) => false,
            Slot::Down(_) => false,
            Slot::Gone(_) => true,
        }
    }
}

impl NodeSlot<KeptExecutor> {
    /// Whether the executor is there, and how far it is.
    pub fn status(&self) -> Status<Report>
        ensures { result ≡ status_of executor_report self.now }
    {
        match &self.slot {
            Slot::Up(node) => Status::Up(node.state().report()),
            Slot::Down(_) => Status::Down,
            Slot::Gone(_) => Status::Lost,
        }
    }

    /// What comes next of the work of an executor that is up and has work.
    pub fn next_work(&self) -> Option<NextWork>
        ensures { WaitsFor self.now result }
    {
        match &self.slot {
            Slot::Up(node) => node.state().next_work(),
            _ => None,
        }
    }
}

impl NodeSlot<KeptVerifier> {
    /// Whether the verifier is there, and how far it is.
    pub fn status(&self) -> Status<VerifierReport>
        ensures { result ≡ status_of verifier_report self.now }
    {
        match &self.slot {
            Slot::Up(node) => Status::Up(VerifierReport {
                decrees: node.known(),
                view: node.view(),
            }),
            Slot::Down(_) => Status::Down,
            Slot::Gone(_) => Status::Lost,
        }
    }
}
