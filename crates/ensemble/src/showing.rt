//! Where the replicas are, for whoever watches. Nothing is decided by it.

use crate::ensemble::Ensemble;

impl Ensemble {
    /// The number of the last committed state of the executors that are up: 0 if none is.
    pub fn number(&self) -> u64 {
        let mut latest = 0u64;
        for host in &self.nodes.executors {
            if let Some(number) = host.number() {
                latest = latest.max(number);
            }
        }
        latest
    }

    /// How many items the committed state has of the first executor that is up: 0 if none is.
    pub fn items(&self) -> u64 {
        for host in &self.nodes.executors {
            if let Some(items) = host.items() {
                return items;
            }
        }
        0
    }

    /// How many bytes the keys and the data have of all items of that state. None: no executor is up.
    pub fn item_bytes(&self) -> Option<u64> {
        for host in &self.nodes.executors {
            if let Some(bytes) = host.item_bytes() {
                return Some(bytes);
            }
        }
        None
    }

    /// The latest view of the verifiers that are up: 0 if none is.
    pub fn view(&self) -> u64 {
        let mut latest = 0u64;
        for slot in &self.nodes.verifiers {
            if let Some(node) = slot.node() {
                latest = latest.max(node.view());
            }
        }
        latest
    }

    /// How many batches were cut. It wraps.
    pub fn cuts(&self) -> u64 {
        self.progress.cuts
    }
}
