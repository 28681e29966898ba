//! SHA-256 of four texts at once: each text has one of the four lanes of a vector, so the rounds of all
//! four take about the time of one.
//!
//! It is built on `std::simd` and on `sha2`, which makes the digests of texts that differ in their number
//! of blocks. The layer above uses `digest4`: each digest is the `sha256` of `sha2` of its text.
#![tactic(auto)]

ghost use Rattle.std.specs.Prelude.{◌≡◌, ℕ, ◌<◌, [], ◌∷◌, length};
ghost use Rattle.sha2.specs.Sha256.{initial_hash_256, sha256};
ghost use Rattle.sha_lanes.specs.Lanes.{block_count, state_in};

mod compress;
mod constants;
mod message;
mod rounds;

use constants::INITIAL_HASH;
use message::{absorb, block_count, digest_of, tail_of};
use sha2::{Digest, Sha256};
use std::simd::u32x4;

/// The SHA-256 digests (FIPS 180-4) of four texts. It takes no memory.
///
/// Texts of the same number of 64-byte blocks are hashed side by side, in less than half of the time
/// that `sha2` takes for them. A text of n bytes has (n + 72) / 64 blocks.
pub fn digest4(first: &[u8], second: &[u8], third: &[u8], fourth: &[u8]) -> [[u8; 32]; 4]
    ensures { result ≡ sha256 first.now ∷ sha256 second.now ∷ sha256 third.now ∷ sha256 fourth.now ∷ [] }
{
    let count = block_count(first.len());
    let are_alike = block_count(second.len()) == count
        && block_count(third.len()) == count
        && block_count(fourth.len()) == count;
    if are_alike {
        digest_side_by_side(first, second, third, fourth, count)
    } else {
        [
            Sha256::digest(first),
            Sha256::digest(second),
            Sha256::digest(third),
            Sha256::digest(fourth),
        ]
    }
}

// The digests of texts of `count` blocks each.
fn digest_side_by_side(
    first: &[u8],
    second: &[u8],
    third: &[u8],
    fourth: &[u8],
    count: usize,
) -> [[u8; 32]; 4]
    requires first { block_count (length first.now) ≡ count }
    requires second { block_count (length second.now) ≡ count }
    requires third { block_count (length third.now) ≡ count }
    requires fourth { block_count (length fourth.now) ≡ count }
    ensures { result ≡ sha256 first.now ∷ sha256 second.now ∷ sha256 third.now ∷ sha256 fourth.now ∷ [] }
{
    let whole = count.saturating_sub(2);
    let first_tail = tail_of(first, whole);
    let second_tail = tail_of(second, whole);
    let third_tail = tail_of(third, whole);
    let fourth_tail = tail_of(fourth, whole);
    let before = absorb(initial_state(), first, second, third, fourth, whole);
    let state = absorb(
        before,
        &first_tail,
        &second_tail,
        &third_tail,
        &fourth_tail,
        count - whole,
    );
    [
        digest_of(&state, 0),
        digest_of(&state, 1),
        digest_of(&state, 2),
        digest_of(&state, 3),
    ]
}

fn initial_state() -> [u32x4; 8]
    ensures { (j : ℕ) → j < 4 → state_in j result ≡ initial_hash_256 }
{
    [
        u32x4::splat(INITIAL_HASH[0]),
        u32x4::splat(INITIAL_HASH[1]),
        u32x4::splat(INITIAL_HASH[2]),
        u32x4::splat(INITIAL_HASH[3]),
        u32x4::splat(INITIAL_HASH[4]),
        u32x4::splat(INITIAL_HASH[5]),
        u32x4::splat(INITIAL_HASH[6]),
        u32x4::splat(INITIAL_HASH[7]),
    ]
}
