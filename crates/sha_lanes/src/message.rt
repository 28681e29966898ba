// A text's blocks with their padding (FIPS 180-4, 5.1.1), and the bytes of a digest.

ghost use Rattle.std.specs.Prelude.{◌≡◌, ℕ, ◌+◌, ◌-◌, ◌*◌, ◌<◌, ◌≤◌, length, drop, take};
ghost use Rattle.sha2.specs.Sha256.{digest_bytes, hash_after, padded_message};
ghost use Rattle.sha_lanes.specs.Lanes.{block_count, state_in, text_of};

use crate::compress::{compress4, load};
use std::simd::u32x4;

// How many blocks a text of `len` bytes has with its padding.
pub(crate) fn block_count(len: usize) -> usize
    ensures { result ≡ block_count len }
{
    len / 64 + (len % 64 + 72) / 64
}

// The last block with its padding, or the last two: all after the first `whole` blocks of the text.
pub(crate) fn tail_of(text: &[u8], whole: usize) -> [u8; 128]
    requires low { 64 * whole ≤ length text.now }
    requires high { length text.now < 64 * whole + 120 }
    ensures { take (64 * (block_count (length text.now) - whole)) result ≡ drop (64 * whole) (padded_message text.now) }
{
    let rest = &text[64 * whole..];
    let end = 64 * (block_count(text.len()) - whole);
    let bit_len = (text.len() as u64).wrapping_mul(8);
    let mut tail = [0u8; 128];
    tail[..rest.len()].copy_from_slice(rest);
    tail[rest.len()] = 0x80;
    tail[end - 8..end].copy_from_slice(&bit_len.to_be_bytes());
    tail
}

// The states after the first `count` blocks of each text.
pub(crate) fn absorb(
    mut state: [u32x4; 8],
    first: &[u8],
    second: &[u8],
    third: &[u8],
    fourth: &[u8],
    count: usize,
) -> [u32x4; 8]
    requires first { 64 * count ≤ length first.now }
    requires second { 64 * count ≤ length second.now }
    requires third { 64 * count ≤ length third.now }
    requires fourth { 64 * count ≤ length fourth.now }
    ensures { (j : ℕ) → j < 4
        → state_in j result ≡ hash_after (state_in j state) (text_of j first.now second.now third.now fourth.now) count }
{
    'each_block: for i in 0..count {
        let from = 64 * i;
        let to = from + 64;
        let words = load(
            &first[from..to],
            &second[from..to],
            &third[from..to],
            &fourth[from..to],
        );
        // A call is not proved whose result is laid over an argument of it.
        let next = compress4(state, words);
        state = next;
    }
    state
}

// The digest whose words are in one lane of the state.
pub(crate) fn digest_of(state: &[u32x4; 8], lane: usize) -> [u8; 32]
    requires { lane < 4 }
    ensures { result ≡ digest_bytes (state_in lane state.now) 8 }
{
    let mut out = [0u8; 32];
    'words: for i in 0..8 {
        let word = state[i].as_array()[lane];
        out[4 * i..4 * i + 4].copy_from_slice(&word.to_be_bytes());
    }
    out
}
