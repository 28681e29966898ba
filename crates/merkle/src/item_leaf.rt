ghost use Rattle.std.specs.Prelude.{OnOk};
ghost use Rattle.wire.specs.Record.{Puts};
ghost use Rattle.merkle.specs.Shape.{leaf_text};
ghost use Rattle.merkle.specs.ItemLeaf.{item_leaf};

use crate::key::TreeValue;
use items::Item;
use proto::Key;
use sha2::{Digest, Sha256};
use wire::{Record, Sink};

impl TreeValue<Key> for Item {
    ghost use Rattle.merkle.specs.ItemLeaf.{item_leaf};

    ghost text = { item_leaf };

    ghost due = { λ item. item.due };

    fn due(&self) -> Option<u64> {
        self.due
    }

    /// Those of the key and of the data.
    fn bytes(&self, key: &Key) -> u64 {
        (key.as_slice().len() as u64).saturating_add(self.block.len() as u64)
    }

    fn put_text<S: Sink>(&self, key: &Key, sink: &mut S) -> Result<(), S::Refusal> {
        key.put(sink)?;
        self.put(sink)
    }

    fn digest(&self, key: &Key) -> [u8; 32] {
        let mut hasher = Sha256::new();
        match put_leaf(key, self, &mut hasher) {
            Ok(()) => hasher.finalize(),
            Err(never) => match never {},
        }
    }
}

/// Writes the text of a leaf.
fn put_leaf<S: Sink>(key: &Key, item: &Item, sink: &mut S) -> Result<(), S::Refusal>
    ensures { OnOk result (Puts S.holds (leaf_text item_leaf key.now item.now) sink.old sink.new) }
{
    sink.put(&[5u8])?;
    item.put_text(key, sink)
}
