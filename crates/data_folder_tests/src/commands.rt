//! The commands of tests.

/// A moment in seconds, a line, a byte and how often it is in the block behind the line, and what the items `a` to `e` have
/// then: the first byte of each, or `-` if it is not there.
pub type Command = (u32, &'static [u8], (u8, usize), &'static [u8; 5]);

/// No block.
const NONE: (u8, usize) = (0, 0);

/// Small items, one of some pages and a reply of as many, and two that are due: `c` at moment 110, and `e` at moment 112.
pub const SMALL_ITEMS: &[Command] = &[
    (100, b"set a 0 0 1", (b'1', 1), b"1----"),
    (100, b"set b 5 0 1", (b'2', 1), b"12---"),
    (100, b"set c 0 10 200", (b'3', 200), b"123--"),
    (101, b"incr a 4", NONE, b"523--"),
    (101, b"delete b", NONE, b"5-3--"),
    (102, b"set d 0 0 6000", (b'4', 6000), b"5-34-"),
    (103, b"get d", NONE, b"5-34-"),
    (104, b"append a 0 0 1", (b'6', 1), b"5-34-"),
    (109, b"add e 0 0 300", (b'7', 300), b"5-347"),
    (110, b"get c", NONE, b"5--47"),
    (111, b"touch e 1", NONE, b"5--47"),
    (111, b"replace d 0 0 1", (b'8', 1), b"5--87"),
    (112, b"set b 0 0 1", (b'9', 1), b"59-8-"),
    (113, b"get a", NONE, b"59-8-"),
    (113, b"delete a", NONE, b"-9-8-"),
    (114, b"set a 0 0 3000", (b'2', 3000), b"29-8-"),
];

/// Items of 1 MiB. The first four are more than 4 MiB, so the next two saves write two of them each to their rows.
pub const LARGE_ITEMS: &[Command] = &[
    (100, b"set a 0 0 1048576", (b'1', 1_048_576), b"1----"),
    (100, b"set b 0 0 1048576", (b'2', 1_048_576), b"12---"),
    (100, b"set c 0 0 1048576", (b'3', 1_048_576), b"123--"),
    (100, b"set d 0 0 1048576", (b'4', 1_048_576), b"1234-"),
    (101, b"delete e", NONE, b"1234-"),
    (101, b"delete b", NONE, b"1-34-"),
    (102, b"set a 0 0 1", (b'6', 1), b"6-34-"),
];

/// No items, one, and none again.
pub const FEW_ITEMS: &[Command] = &[
    (100, b"get a", NONE, b"-----"),
    (100, b"set a 0 0 1", (b'1', 1), b"1----"),
    (100, b"delete a", NONE, b"-----"),
];

/// Before an executor stops.
pub const BEFORE_A_STOP: &[Command] = &[(100, b"set a 0 0 1", (b'1', 1), b"1----")];

/// While it is down.
pub const AFTER_A_STOP: &[Command] = &[
    (101, b"set b 0 0 1", (b'2', 1), b"12---"),
    (102, b"delete a", NONE, b"-2---"),
];

/// Beside many items that are due at moment 110.
pub const BESIDE_MANY: &[Command] = &[(101, b"get a", NONE, b"-----")];

/// When these are gone.
pub const AFTER_MANY: &[Command] = &[
    (110, b"set a 0 0 1", (b'1', 1), b"1----"),
    (111, b"set b 0 0 1", (b'2', 1), b"12---"),
];
