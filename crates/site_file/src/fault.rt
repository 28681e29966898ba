//! Why a site file is refused.

ghost use Rattle.std.specs.Prelude.{◌≡◌};
ghost use Rattle.site_file.specs.declared.fault.SiteFault.TheVariants.{NoMemory};

use crate::limits::{MOST_PARCEL_MIB, MOST_SITE_BYTES};
use crate::place::{MemberKey, Place, SiteKey};
use events::MOST_CLIENTS;
use std::alloc::{AllocError, AllocFailed};
use std::error::Error;
use std::fmt;
use toml::de::Error as TomlError;

/// Why a site file is refused. Members are counted from 0.
#[derive(Debug, Drop)]
pub enum SiteFault {
    /// It has more than `MOST_SITE_BYTES` bytes.
    TooLong,
    /// It is no TOML, for this reason in this line, from 1.
    NotToml { line: usize, reason: TomlError },
    /// The file, or this member, has a key of this name, and there is no such key.
    Unknown { member: Option<usize>, name: String },
    /// There is no value.
    Missing(Place),
    /// The value is of another type or form, or out of its range.
    Bad(Place),
    /// `proxies` is no number of proxies that a member may have with this `u`.
    BadProxies(u8),
    /// There are so many members, and not `2u + 1`.
    MemberCount { u: u8, members: usize },
    /// These two members have the same address for their peers.
    SamePeer(usize, usize),
    NoMemory,
}

/// What is expected at the place.
fn write_form<W: fmt::Write>(f: &mut fmt::Formatter<W>, place: Place) -> fmt::Result {
    match place {
        Place::OfSite(SiteKey::Site) => f.write_str("a site is named by 32 hex digits, in quotes"),
        Place::OfSite(SiteKey::U) => f.write_str("0 to 3 members may fail, of 2u + 1"),
        Place::OfSite(SiteKey::Proxies) => f.write_str("each member has one client proxy or more"),
        Place::OfSite(SiteKey::Key) => f.write_str("the path of a key file is expected, in quotes"),
        Place::OfSite(SiteKey::ParcelMib) => {
            let most = MOST_PARCEL_MIB;
            write!(f, "a parcel has 1 to {most} MiB")
        }
        Place::OfSite(SiteKey::Member) => f.write_str("each machine has a [[member]]"),
        Place::OfMember(_, MemberKey::Listen) => f.write_str(
            "a list of addresses is of the form [\"10.0.0.1:11211\"], with one or more; names are not looked up",
        ),
        Place::OfMember(..) => f.write_str(
            "an address is of the form \"10.0.0.1:21211\" or \"[::1]:21211\"; names are not looked up",
        ),
    }
}

/// Which key is unknown, and which are known.
fn write_unknown<W: fmt::Write>(
    f: &mut fmt::Formatter<W>,
    member: Option<usize>,
    name: &str,
) -> fmt::Result {
    match member {
        None => write!(
            f,
            "{name:?} is no key of a site file: it has site, u, proxies, key, parcel_mib and member"
        ),
        Some(member) => write!(
            f,
            "{name:?} is no key of member {member}: a member has peer, listen and status"
        ),
    }
}

/// How many proxies a member has.
fn write_proxies<W: fmt::Write>(f: &mut fmt::Formatter<W>, u: u8) -> fmt::Result {
    let most = u32::from(MOST_CLIENTS) / (2 * u32::from(u) + 1);
    write!(f, "proxies: with u = {u} a member has 1 to {most}")
}

impl fmt::Display for SiteFault {
    fn fmt<W: fmt::Write>(&self, f: &mut fmt::Formatter<W>) -> fmt::Result {
        match self {
            SiteFault::TooLong => {
                let most = MOST_SITE_BYTES;
                write!(f, "a site file has at most {most} bytes")
            }
            SiteFault::NotToml { line, reason } => {
                let why = reason.message();
                write!(f, "line {line}: {why}")
            }
            SiteFault::Unknown { member, name } => write_unknown(f, *member, name.as_str()),
            SiteFault::Missing(place) => {
                write!(f, "{place} is missing: ")?;
                write_form(f, *place)
            }
            SiteFault::Bad(place) => {
                write!(f, "{place}: ")?;
                write_form(f, *place)
            }
            SiteFault::BadProxies(u) => write_proxies(f, *u),
            SiteFault::MemberCount { u, members } => {
                let all = 2 * u32::from(*u) + 1;
                write!(
                    f,
                    "member: there are {members}, and with u = {u} there have to be {all}"
                )
            }
            SiteFault::SamePeer(one, other) => {
                write!(
                    f,
                    "peer of member {other}: member {one} has the same address"
                )
            }
            SiteFault::NoMemory => f.write_str("out of memory"),
        }
    }
}

impl Error for SiteFault {}

impl From<AllocError> for SiteFault {
    ghost from_gives = { λ _ e. e ≡ NoMemory };

    fn from(_: AllocError) -> SiteFault {
        SiteFault::NoMemory
    }
}

impl<T: Drop> From<AllocFailed<T>> for SiteFault {
    ghost from_gives = { λ _ e. e ≡ NoMemory };

    fn from(_: AllocFailed<T>) -> SiteFault {
        SiteFault::NoMemory
    }
}
