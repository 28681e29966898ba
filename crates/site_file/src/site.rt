//! What a site file says.

ghost use Rattle.std.specs.Prelude.{◌≡◌, ◌≤◌, ◌<◌, ◌+◌, ◌*◌, ◌/◌, vec_len};
ghost use Rattle.events.specs.declared.config.TheConstants.{MOST_CLIENTS};

use crate::limits::SITE_BYTES;
use std::net::SocketAddr;

/// Where a member of a site is reached.
pub struct SiteMember {
    /// By the other members. No other member of the site has this address.
    pub peer: SocketAddr,
    /// By clients: at one address or more.
    pub listen: Vec<SocketAddr>,
    /// By who looks at its figures. None: nowhere.
    pub status: Option<SocketAddr>,
}

impl Drop for SiteMember {
    fn drop(self) {
        let SiteMember {
            peer: _,
            listen: _,
            status: _,
        } = self;
    }
}

/// What a site file says.
pub struct SiteFile {
    /// The name of the site.
    pub site: [u8; SITE_BYTES],
    /// So many of its members may fail: 0 to 3.
    pub u: u8,
    /// How many client proxies each member has: at least one, and all members together `events::MOST_CLIENTS` at most.
    pub proxies: u16,
    /// The path of the key file.
    pub key: String,
    /// The most that a parcel has, in MiB: 1 to `MOST_PARCEL_MIB`.
    pub parcel_mib: u32,
    /// Its members, by their numbers: `2u + 1`.
    pub members: Vec<SiteMember>,
    ghost few: { u < 4 },
    ghost whole: { vec_len members ≡ 2 * u + 1 },
    ghost some_proxies: { 1 ≤ proxies },
    ghost fits: { proxies ≤ MOST_CLIENTS / (2 * u + 1) },
}

impl Drop for SiteFile {
    fn drop(self) {
        let SiteFile {
            site: _,
            u: _,
            proxies: _,
            key: _,
            parcel_mib: _,
            members: _,
        } = self;
    }
}
