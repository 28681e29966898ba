// The functions of FIPS 180-4, 4.1.2 and 6.2.2, on vectors: lane by lane they are those of the standard.

ghost use Rattle.std.specs.Prelude.{◌≡◌, ℕ, ◌+◌, ◌-◌, ◌*◌, ◌/◌, ◌%◌, ◌^◌, ◌<◌, slice_index, bit_xor};
ghost use Rattle.std.specs.Int.{w32, rotate_right as rotated};
ghost use Rattle.sha2.specs.Sha256.{add32, big_sigma0, big_sigma1, ch, add_state, maj, round, small_sigma0, small_sigma1};
ghost use Rattle.sha_lanes.specs.Lanes.{state_in};

use std::simd::u32x4;

#[inline(always)]
pub(crate) fn add(a: u32x4, b: u32x4) -> u32x4
    ensures { (j : ℕ) → j < 4 → slice_index result j ≡ add32 (slice_index a j) (slice_index b j) }
{
    a + b
}

#[inline(always)]
fn rotate_right(x: u32x4, k: u32) -> u32x4
    requires low { 0 < k }
    requires high { k < 32 }
    ensures { (j : ℕ) → j < 4 → slice_index result j ≡ rotated w32 (slice_index x j) k }
{
    (x >> u32x4::splat(k)) | (x << u32x4::splat(32 - k))
}

#[inline(always)]
fn shift_right(x: u32x4, k: u32) -> u32x4
    requires { k < 32 }
    ensures { (j : ℕ) → j < 4 → slice_index result j ≡ slice_index x j / 2 ^ k }
{
    x >> u32x4::splat(k)
}

#[inline(always)]
fn xor(a: u32x4, b: u32x4) -> u32x4
    ensures { (j : ℕ) → j < 4 → slice_index result j ≡ bit_xor (slice_index a j) (slice_index b j) }
{
    a ^ b
}

#[inline(always)]
fn ch(x: u32x4, y: u32x4, z: u32x4) -> u32x4
    ensures { (j : ℕ) → j < 4 → slice_index result j ≡ ch (slice_index x j) (slice_index y j) (slice_index z j) }
{
    (x & y) ^ (!x & z)
}

// One round's `x ^ y` is the next round's `y ^ z`, so it is computed once.
#[inline(always)]
fn maj(x: u32x4, y: u32x4, z: u32x4) -> u32x4
    ensures { (j : ℕ) → j < 4 → slice_index result j ≡ maj (slice_index x j) (slice_index y j) (slice_index z j) }
{
    y ^ ((x ^ y) & (y ^ z))
}

#[inline(always)]
fn big_sigma0(x: u32x4) -> u32x4
    ensures { (j : ℕ) → j < 4 → slice_index result j ≡ big_sigma0 (slice_index x j) }
{
    xor(
        xor(rotate_right(x, 2), rotate_right(x, 13)),
        rotate_right(x, 22),
    )
}

#[inline(always)]
fn big_sigma1(x: u32x4) -> u32x4
    ensures { (j : ℕ) → j < 4 → slice_index result j ≡ big_sigma1 (slice_index x j) }
{
    xor(
        xor(rotate_right(x, 6), rotate_right(x, 11)),
        rotate_right(x, 25),
    )
}

#[inline(always)]
pub(crate) fn small_sigma0(x: u32x4) -> u32x4
    ensures { (j : ℕ) → j < 4 → slice_index result j ≡ small_sigma0 (slice_index x j) }
{
    xor(
        xor(rotate_right(x, 7), rotate_right(x, 18)),
        shift_right(x, 3),
    )
}

#[inline(always)]
pub(crate) fn small_sigma1(x: u32x4) -> u32x4
    ensures { (j : ℕ) → j < 4 → slice_index result j ≡ small_sigma1 (slice_index x j) }
{
    xor(
        xor(rotate_right(x, 17), rotate_right(x, 19)),
        shift_right(x, 10),
    )
}

// One round of each text, whose words are the lanes of `word`.
#[inline(always)]
pub(crate) fn round(v: [u32x4; 8], k: u32, word: u32x4) -> [u32x4; 8]
    ensures { (j : ℕ) → j < 4 → state_in j result ≡ round (state_in j v) k (slice_index word j) }
{
    let [a, b, c, d, e, f, g, h] = v;
    let sum = add(add(h, big_sigma1(e)), ch(e, f, g));
    let temp1 = add(add(sum, u32x4::splat(k)), word);
    let temp2 = add(big_sigma0(a), maj(a, b, c));
    [add(temp1, temp2), a, b, c, add(d, temp1), e, f, g]
}

// The words of two states, added.
#[inline(always)]
pub(crate) fn add_states(h: [u32x4; 8], v: [u32x4; 8]) -> [u32x4; 8]
    ensures { (j : ℕ) → j < 4 → state_in j result ≡ add_state (state_in j h) (state_in j v) }
{
    [
        add(h[0], v[0]),
        add(h[1], v[1]),
        add(h[2], v[2]),
        add(h[3], v[3]),
        add(h[4], v[4]),
        add(h[5], v[5]),
        add(h[6], v[6]),
        add(h[7], v[7]),
    ]
}
