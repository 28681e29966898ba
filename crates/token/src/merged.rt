//! The digest of a page that is in parts.

ghost use Rattle.std.specs.Prelude.{◌≡◌, ◌<◌, ◌^◌, ◌∷◌, ℕ, List, length, OnOk, IfOk};
ghost use Rattle.items.specs.declared.item.Item.{Item as ItemOf};
ghost use Rattle.std.specs.List.{flat_map};
ghost use Rattle.wire.specs.Item.{page_text, entry_text};
ghost use Rattle.wire.specs.Record.{Puts};
ghost use Rattle.token.specs.Digest.{digest as digest_of};
ghost use Rattle.token.specs.Merged.{AreParts, IsNext, lent, count_of, is_earlier as is_before};

use base::Entry;
use items::Item;
use proto::Key;
use sha2::{Digest, Sha256};
use wire::{Record, Sink, put_count};

/// What is left of each of the parts of a page.
type Parts<'a> = [&'a [Entry<Key, Item>]; 4];

/// Whether the first entry of the one comes before all of the other. Each part is sorted.
fn is_earlier(one: &[Entry<Key, Item>], other: &[Entry<Key, Item>]) -> bool
    ensures { result ≡ is_before one.now other.now }
{
    match (one, other) {
        ([], _) => false,
        (_, []) => true,
        ([first, ..], [second, ..]) => first.key().compare(second.key()).is_lt(),
    }
}

/// The part whose first entry comes before all others.
fn next_of(parts: &Parts<'_>) -> usize
    ensures within { result < 4 }
    ensures next { (j : ℕ) → j < 4 → IsNext (lent parts.now) j → result ≡ j }
{
    let mut next = 0;
    for part in 1..parts.len() {
        if is_earlier(parts[part], parts[next]) {
            next = part;
        }
    }
    next
}

/// Writes the entry that comes next, and leaves the others.
fn put_next<S: Sink>(parts: &mut Parts<'_>, sink: &mut S) -> Result<(), S::Refusal>
    ensures left { (class : List ℕ → ℕ) (e : List ℕ × ItemOf) (es : List (List ℕ × ItemOf)) → AreParts class (e ∷ es) (lent parts.old)
        → OnOk result (AreParts class es (lent parts.new)) }
    ensures put { (class : List ℕ → ℕ) (e : List ℕ × ItemOf) (es : List (List ℕ × ItemOf)) → AreParts class (e ∷ es) (lent parts.old)
        → OnOk result (Puts S.holds (entry_text e) sink.old sink.new) }
{
    let next = next_of(parts);
    if let Some((entry, others)) = parts[next].split_first() {
        entry.put(sink)?;
        parts[next] = others;
    }
    Ok(())
}

/// Writes so many entries of the parts, in the order of their keys.
fn put_entries<S: Sink>(parts: Parts<'_>, count: usize, sink: &mut S) -> Result<(), S::Refusal>
    ensures { (class : List ℕ → ℕ) (whole : List (List ℕ × ItemOf)) → AreParts class whole (lent parts.entry) → length whole ≡ count
        → OnOk result (Puts S.holds (flat_map entry_text whole) sink.old sink.new) }
{
    let mut left = parts;
    for _ in 0..count {
        put_next(&mut left, sink)?;
    }
    Ok(())
}

/// How many entries the parts have.
fn count(parts: &Parts<'_>) -> usize
    requires { count_of (lent parts.now) < 2 ^ 32 }
    ensures { result ≡ count_of (lent parts.now) }
{
    parts.iter().map(|part| part.len()).sum()
}

/// Writes the text of the page that the parts are.
fn put_merged<S: Sink>(parts: Parts<'_>, sink: &mut S) -> Result<(), S::Refusal>
    requires { count_of (lent parts) < 2 ^ 32 }
    ensures { (class : List ℕ → ℕ) (whole : List (List ℕ × ItemOf)) → AreParts class whole (lent parts.entry)
        → OnOk result (Puts S.holds (page_text whole) sink.old sink.new) }
{
    let count = count(&parts);
    sink.put(&[0u8])?;
    put_count(count, sink)?;
    put_entries(parts, count, sink)
}

/// The digest of the page whose parts these are, each of them sorted by its keys: SHA-256 (FIPS
/// 180-4) of the page's text, 32 bytes. It takes no memory: the entries are digested as the parts are
/// merged.
#[tactic(auto, unfolding(crate::specs::Digest::digest))]
pub fn merged_digest(parts: [&[Entry<Key, Item>]; 4]) -> [u8; 32]
    requires { count_of (lent parts) < 2 ^ 32 }
    ensures { (class : List ℕ → ℕ) (whole : List (List ℕ × ItemOf)) → AreParts class whole (lent parts.entry) → result ≡ digest_of (page_text whole) }
{
    let mut hasher = Sha256::new();
    match put_merged(parts, &mut hasher) {
        Ok(()) => hasher.finalize(),
        Err(never) => match never {},
    }
}
