ghost use Rattle.std.specs.Prelude.{◌≡◌, ◌^◌, [], ◌∷◌, length};
ghost use Rattle.wire.specs.Token.{inner_text};
ghost use Rattle.token.specs.Digest.{digest as digest_of, levels, root_of};

use wire::{InnerText, digest};

/// How many levels the root is above the digests of the pages.
pub const HEIGHT: u32 = 8;

/// How many pages a store has, and so how many digests have a root.
pub const PAGES: usize = 256;

/// The levels of the root in a token of the old form.
pub const OLD_HEIGHT: u32 = 6;

/// The pages of the old form, each of them four of today's.
pub const OLD_PAGES: usize = 64;

/// The digest of two neighbours in the tree of page digests: SHA-256 (FIPS 180-4) of their inner
/// text, 32 bytes.
#[tactic(auto, unfolding(crate::specs::Digest::digest))]
pub fn inner_digest(left: &[u8; 32], right: &[u8; 32]) -> [u8; 32]
    ensures { result ≡ digest_of (inner_text (record { left = left.now; right = right.now })) }
{
    digest(&InnerText {
        left: *left,
        right: *right,
    })
}

/// The one digest of the last level of a tree of this height, over as many digests as it has leaves.
fn last_level(leaves: &[[u8; 32]], height: u32) -> [u8; 32]
    requires { length leaves.now ≡ 2 ^ height }
    ensures { levels height leaves.now ≡ result ∷ [] }
{
    if height == 0 {
        return leaves[0];
    }
    let (left, right) = leaves.split_at(leaves.len() / 2);
    inner_digest(
        &last_level(left, height - 1),
        &last_level(right, height - 1),
    )
}

/// The root of a tree of this height, over as many digests as it has leaves: neighbours are digested
/// together, level by level, until one digest of 32 bytes is left. It takes no memory.
#[tactic(auto, unfolding(crate::specs::Digest::root_of))]
pub fn root(leaves: &[[u8; 32]], height: u32) -> [u8; 32]
    requires { length leaves.now ≡ 2 ^ height }
    ensures { result ≡ root_of height leaves.now }
{
    last_level(leaves, height)
}
