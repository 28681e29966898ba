//! What of a site never changes.

ghost use Rattle.std.specs.Prelude.{◌≡◌, OnOk, IfErr};
ghost use Rattle.site_file.specs.Identity.{IsSameSite, HasChanged};

use crate::limits::SITE_BYTES;
use crate::site::SiteFile;
use thiserror::Error;

/// What of a site never changes. The number of its members is `2u + 1`.
#[derive(Clone, Copy, Debug, PartialEq, Eq)]
pub struct SiteIdentity {
    /// The name of the site.
    pub site: [u8; SITE_BYTES],
    /// So many of its members may fail.
    pub u: u8,
    /// How many client proxies each member has.
    pub proxies: u16,
}

/// What of a site file is not as it was.
#[derive(Clone, Copy, Debug, PartialEq, Eq, Error)]
pub enum Changed {
    #[error("site: the data is of another site")]
    Site,
    #[error("u: it is not that of the data, and can never change")]
    U,
    #[error("proxies: it is not that of the data, and can never change")]
    Proxies,
}

impl SiteFile {
    /// What of the site never changes: a member keeps it with its data.
    pub fn identity(&self) -> SiteIdentity
        ensures { result ≡ record { site = self.now.site; u = self.now.u; proxies = self.now.proxies } }
    {
        SiteIdentity {
            site: self.site,
            u: self.u,
            proxies: self.proxies,
        }
    }

    /// Compares the file with the site that data is of. The error names what differs: the first of `site`, `u` and
    /// `proxies`. Addresses, the key, `parcel_mib` and their order in the file may change; the order of the members may
    /// not, which nobody can see in two files.
    pub fn same_site(&self, saved: &SiteIdentity) -> Result<(), Changed>
        ensures ok { OnOk result (IsSameSite self.now saved.now) }
        ensures err { IfErr result (λ changed. HasChanged changed self.now saved.now) }
    {
        if self.site != saved.site {
            return Err(Changed::Site);
        }
        if self.u != saved.u {
            return Err(Changed::U);
        }
        if self.proxies != saved.proxies {
            return Err(Changed::Proxies);
        }
        Ok(())
    }
}
