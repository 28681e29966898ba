//! Records of batches of epoch 1, byte by byte. Each request is its client's first one; a `set` stores
//! the data `5`.

pub const ONE_SET: &[u8] = &[
    // Batch 1 at moment 1000, of one request.
    4, 0, 0, 0, 0, 0, 0, 0, 1, 0, 0, 0, 0, 0, 0, 0, 1, 0, 0, 3, 232, 0, 0, 0, 1,
    // Client 1: `set a`.
    0, 1, 0, 0, 0, 0, 0, 0, 0, 1, 2, 1, b'a', 0, 0, 0, 0, 0, 0, 0, 0, 0, 0, 0, 1, b'5',
];

pub const SET_OF_B: &[u8] = &[
    // Batch 1 at moment 1000, of one request.
    4, 0, 0, 0, 0, 0, 0, 0, 1, 0, 0, 0, 0, 0, 0, 0, 1, 0, 0, 3, 232, 0, 0, 0, 1,
    // Client 1: `set b`.
    0, 1, 0, 0, 0, 0, 0, 0, 0, 1, 2, 1, b'b', 0, 0, 0, 0, 0, 0, 0, 0, 0, 0, 0, 1, b'5',
];

pub const SET_OF_C: &[u8] = &[
    // Batch 1 at moment 1000, of one request.
    4, 0, 0, 0, 0, 0, 0, 0, 1, 0, 0, 0, 0, 0, 0, 0, 1, 0, 0, 3, 232, 0, 0, 0, 1,
    // Client 1: `set c`.
    0, 1, 0, 0, 0, 0, 0, 0, 0, 1, 2, 1, b'c', 0, 0, 0, 0, 0, 0, 0, 0, 0, 0, 0, 1, b'5',
];

pub const SET_OF_A_AND_B: &[u8] = &[
    // Batch 1 at moment 1000, of two requests.
    4, 0, 0, 0, 0, 0, 0, 0, 1, 0, 0, 0, 0, 0, 0, 0, 1, 0, 0, 3, 232, 0, 0, 0, 2,
    // Client 1: `set a`.
    0, 1, 0, 0, 0, 0, 0, 0, 0, 1, 2, 1, b'a', 0, 0, 0, 0, 0, 0, 0, 0, 0, 0, 0, 1, b'5',
    // Client 2: `set b`.
    0, 2, 0, 0, 0, 0, 0, 0, 0, 1, 2, 1, b'b', 0, 0, 0, 0, 0, 0, 0, 0, 0, 0, 0, 1, b'5',
];

pub const SETS_OF_TWO_PAGES: &[u8] = &[
    // Batch 1 at moment 1000, of two requests.
    4, 0, 0, 0, 0, 0, 0, 0, 1, 0, 0, 0, 0, 0, 0, 0, 1, 0, 0, 3, 232, 0, 0, 0, 2,
    // Client 1: `set C`.
    0, 1, 0, 0, 0, 0, 0, 0, 0, 1, 2, 1, b'C', 0, 0, 0, 0, 0, 0, 0, 0, 0, 0, 0, 1, b'5',
    // Client 2: `set E`.
    0, 2, 0, 0, 0, 0, 0, 0, 0, 1, 2, 1, b'E', 0, 0, 0, 0, 0, 0, 0, 0, 0, 0, 0, 1, b'5',
];

pub const NO_REQUEST: &[u8] = &[
    // Batch 1 at moment 1000, of no request.
    4, 0, 0, 0, 0, 0, 0, 0, 1, 0, 0, 0, 0, 0, 0, 0, 1, 0, 0, 3, 232, 0, 0, 0, 0,
];

pub const DUE_AT_ONCE: &[u8] = &[
    // Batch 1 at moment 1000, of two requests.
    4, 0, 0, 0, 0, 0, 0, 0, 1, 0, 0, 0, 0, 0, 0, 0, 1, 0, 0, 3, 232, 0, 0, 0, 2,
    // Client 1: `set a` with exptime -1.
    0, 1, 0, 0, 0, 0, 0, 0, 0, 1, 2, 1, b'a', 0, 0, 0, 0, 255, 255, 255, 255, 0, 0, 0, 1, b'5',
    // Client 2: `get a`.
    0, 2, 0, 0, 0, 0, 0, 0, 0, 1, 0, 0, 0, 0, 1, 1, b'a',
];

/// An exptime of more than 30 days is a moment by itself.
pub const DUE_LATER: &[u8] = &[
    // Batch 1 at moment 1000, of one request.
    4, 0, 0, 0, 0, 0, 0, 0, 1, 0, 0, 0, 0, 0, 0, 0, 1, 0, 0, 3, 232, 0, 0, 0, 1,
    // Client 1: `set a` with exptime 2592001.
    0, 1, 0, 0, 0, 0, 0, 0, 0, 1, 2, 1, b'a', 0, 0, 0, 0, 0, 39, 141, 1, 0, 0, 0, 1, b'5',
];

pub const GET_BEFORE_IT_IS_DUE: &[u8] = &[
    // Batch 2 at moment 2592000, of one request.
    4, 0, 0, 0, 0, 0, 0, 0, 1, 0, 0, 0, 0, 0, 0, 0, 2, 0, 39, 141, 0, 0, 0, 0, 1,
    // Client 65: `get a`.
    0, 65, 0, 0, 0, 0, 0, 0, 0, 1, 0, 0, 0, 0, 1, 1, b'a',
];

pub const GET_ONCE_IT_IS_DUE: &[u8] = &[
    // Batch 2 at moment 2592001, of one request.
    4, 0, 0, 0, 0, 0, 0, 0, 1, 0, 0, 0, 0, 0, 0, 0, 2, 0, 39, 141, 1, 0, 0, 0, 1,
    // Client 65: `get a`.
    0, 65, 0, 0, 0, 0, 0, 0, 0, 1, 0, 0, 0, 0, 1, 1, b'a',
];

pub const GAT_OF_A: &[u8] = &[
    // Batch 2 at moment 1000, of one request.
    4, 0, 0, 0, 0, 0, 0, 0, 1, 0, 0, 0, 0, 0, 0, 0, 2, 0, 0, 3, 232, 0, 0, 0, 1,
    // Client 65: `gat 10 a b`.
    0, 65, 0, 0, 0, 0, 0, 0, 0, 1, 12, 0, 0, 0, 10, 0, 0, 0, 2, 1, b'a', 1, b'b',
];

pub const GET_AT_1009: &[u8] = &[
    // Batch 3 at moment 1009, of one request.
    4, 0, 0, 0, 0, 0, 0, 0, 1, 0, 0, 0, 0, 0, 0, 0, 3, 0, 0, 3, 241, 0, 0, 0, 1,
    // Client 66: `get a`.
    0, 66, 0, 0, 0, 0, 0, 0, 0, 1, 0, 0, 0, 0, 1, 1, b'a',
];

pub const GET_AT_1010: &[u8] = &[
    // Batch 3 at moment 1010, of one request.
    4, 0, 0, 0, 0, 0, 0, 0, 1, 0, 0, 0, 0, 0, 0, 0, 3, 0, 0, 3, 242, 0, 0, 0, 1,
    // Client 66: `get a`.
    0, 66, 0, 0, 0, 0, 0, 0, 0, 1, 0, 0, 0, 0, 1, 1, b'a',
];

/// The mixer looks at two keys of a request, so that both are one group.
pub const GAT_AND_GET_OF_C: &[u8] = &[
    // Batch 2 at moment 1000, of two requests.
    4, 0, 0, 0, 0, 0, 0, 0, 1, 0, 0, 0, 0, 0, 0, 0, 2, 0, 0, 3, 232, 0, 0, 0, 2,
    // Client 65: `gat 5 x y c`.
    0, 65, 0, 0, 0, 0, 0, 0, 0, 1, 12, 0, 0, 0, 5, 0, 0, 0, 3, 1, b'x', 1, b'y', 1, b'c',
    // Client 66: `get c`.
    0, 66, 0, 0, 0, 0, 0, 0, 0, 1, 0, 0, 0, 0, 1, 1, b'c',
];

/// The mixer looks at two keys of a request, so that all three are one group.
pub const THIRD_KEY: &[u8] = &[
    // Batch 1 at moment 1000, of three requests.
    4, 0, 0, 0, 0, 0, 0, 0, 1, 0, 0, 0, 0, 0, 0, 0, 1, 0, 0, 3, 232, 0, 0, 0, 3,
    // Client 1: `set a`.
    0, 1, 0, 0, 0, 0, 0, 0, 0, 1, 2, 1, b'a', 0, 0, 0, 0, 0, 0, 0, 0, 0, 0, 0, 1, b'5',
    // Client 2: `get a y c`.
    0, 2, 0, 0, 0, 0, 0, 0, 0, 1, 0, 0, 0, 0, 3, 1, b'a', 1, b'y', 1, b'c',
    // Client 3: `set c`.
    0, 3, 0, 0, 0, 0, 0, 0, 0, 1, 2, 1, b'c', 0, 0, 0, 0, 0, 0, 0, 0, 0, 0, 0, 1, b'5',
];

/// Each reader is in another group than the writer of its key.
pub const TWO_GROUPS: &[u8] = &[
    // Batch 1 at moment 1000, of four requests.
    4, 0, 0, 0, 0, 0, 0, 0, 1, 0, 0, 0, 0, 0, 0, 0, 1, 0, 0, 3, 232, 0, 0, 0, 4,
    // Client 1: `set a`.
    0, 1, 0, 0, 0, 0, 0, 0, 0, 1, 2, 1, b'a', 0, 0, 0, 0, 0, 0, 0, 0, 0, 0, 0, 1, b'5',
    // Client 2: `get a`.
    0, 2, 0, 0, 0, 0, 0, 0, 0, 1, 0, 0, 0, 0, 1, 1, b'a',
    // Client 3: `get b`.
    0, 3, 0, 0, 0, 0, 0, 0, 0, 1, 0, 0, 0, 0, 1, 1, b'b',
    // Client 4: `set b`.
    0, 4, 0, 0, 0, 0, 0, 0, 0, 1, 2, 1, b'b', 0, 0, 0, 0, 0, 0, 0, 0, 0, 0, 0, 1, b'5',
];

pub const SET_MORE: &[u8] = &[
    // Batch 2 at moment 1000, of one request.
    4, 0, 0, 0, 0, 0, 0, 0, 1, 0, 0, 0, 0, 0, 0, 0, 2, 0, 0, 3, 232, 0, 0, 0, 1,
    // Client 65: `set a`.
    0, 65, 0, 0, 0, 0, 0, 0, 0, 1, 2, 1, b'a', 0, 0, 0, 0, 0, 0, 0, 0, 0, 0, 0, 1, b'5',
];

pub const SET_AT_AN_EARLIER_MOMENT: &[u8] = &[
    // Batch 2 at moment 900, of one request.
    4, 0, 0, 0, 0, 0, 0, 0, 1, 0, 0, 0, 0, 0, 0, 0, 2, 0, 0, 3, 132, 0, 0, 0, 1,
    // Client 65: `set c`.
    0, 65, 0, 0, 0, 0, 0, 0, 0, 1, 2, 1, b'c', 0, 0, 0, 0, 0, 0, 0, 0, 0, 0, 0, 1, b'5',
];

pub const GET_THREE: &[u8] = &[
    // Batch 2 at moment 1000, of one request.
    4, 0, 0, 0, 0, 0, 0, 0, 1, 0, 0, 0, 0, 0, 0, 0, 2, 0, 0, 3, 232, 0, 0, 0, 1,
    // Client 65: `get a x c`.
    0, 65, 0, 0, 0, 0, 0, 0, 0, 1, 0, 0, 0, 0, 3, 1, b'a', 1, b'x', 1, b'c',
];

/// Two readers of `a` and `b` behind two other keys, in two orders, and two writers.
pub const CROSSING: &[u8] = &[
    // Batch 2 at moment 1000, of four requests.
    4, 0, 0, 0, 0, 0, 0, 0, 1, 0, 0, 0, 0, 0, 0, 0, 2, 0, 0, 3, 232, 0, 0, 0, 4,
    // Client 65: `gets x y a b`.
    0, 65, 0, 0, 0, 0, 0, 0, 0, 1, 1, 0, 0, 0, 4, 1, b'x', 1, b'y', 1, b'a', 1, b'b',
    // Client 66: `gets x y b a`.
    0, 66, 0, 0, 0, 0, 0, 0, 0, 1, 1, 0, 0, 0, 4, 1, b'x', 1, b'y', 1, b'b', 1, b'a',
    // Client 67: `set a`.
    0, 67, 0, 0, 0, 0, 0, 0, 0, 1, 2, 1, b'a', 0, 0, 0, 0, 0, 0, 0, 0, 0, 0, 0, 1, b'5',
    // Client 68: `set b`.
    0, 68, 0, 0, 0, 0, 0, 0, 0, 1, 2, 1, b'b', 0, 0, 0, 0, 0, 0, 0, 0, 0, 0, 0, 1, b'5',
];
