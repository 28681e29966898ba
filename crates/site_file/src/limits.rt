//! The limits of a site file.

/// The most bytes that a site file has.
pub const MOST_SITE_BYTES: usize = 65_536;

/// So many of its members may fail at most: `u` is 0 to 3.
pub const MOST_U: u32 = 3;

/// The most that `parcel_mib` may be: 1 TiB.
pub const MOST_PARCEL_MIB: u32 = 1_048_576;

/// The bytes by which a site is named.
pub const SITE_BYTES: usize = 16;

/// The bytes of a key.
pub const KEY_BYTES: usize = 32;
